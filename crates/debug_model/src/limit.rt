/// A chip's limit of points, where none is named: a rise of TCK that finds more points in the chip's journal ends the chip.
pub const POINTS_USUAL: u64 = 16_777_200;

/// The highest limit of points that a chip may have.
pub const POINTS_HIGHEST: u64 = 1 << 62;
