//! What holds of bits and numbers as a whole.
ghost use Rattle.jt_base.specs.BitLaws.{GivesBitsBack, GivesNumberBack};

/// Bits and the number that they spell give each other back.
pub fn bits_spell_one_number()
    ensures bits { GivesBitsBack }
    ensures number { GivesNumberBack }
{}
