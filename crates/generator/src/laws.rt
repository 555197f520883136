ghost use Rattle.std.specs.Prelude.{◌≡◌};
ghost use Rattle.generator.specs.Image.{program, IsImageOf};

/// A seed has one image: each instruction of it has one word.
pub fn one_image(seed: u64, left: &[u8], right: &[u8])
    requires left { IsImageOf (program seed) left.now }
    requires right { IsImageOf (program seed) right.now }
    ensures { left.now ≡ right.now }
{}
