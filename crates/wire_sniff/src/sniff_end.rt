/// How a sniffing ended.
#[derive(Clone, Copy, Debug, PartialEq, Eq)]
pub enum SniffEnd {
    /// The first byte that is no sign: its place in the stream, from 0, and the byte.
    BadSign(usize, u8),
    /// The first answer that is neither `0` nor `1`.
    BadAnswer(u8),
    /// The stream asks more or less often than there are answers.
    Count {
        /// How often TDO is asked.
        asked: u64,
        /// How many answers there are.
        given: u64,
    },
    /// A line could not be put.
    Sink,
    /// All lines were put.
    Clean,
}
