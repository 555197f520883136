use chain_scan::ChainPlan;
use rv_model::Version;

/// What the words ask for.
#[derive(Drop)]
pub enum Job {
    /// Chip and probe in one process: the inputs, the chip's options, the most bytes that a piece of the stream has
    /// (from 1 to 256), and the way of the bytes to the chip.
    Both(Inputs, ChipOptions, u16, Way),
    /// Chip and probe in one process: the probe loads an ELF file into the memory of a chip whose harts are halted, and then runs the script.
    Elf {
        /// The name of the ELF file.
        file: String,
        /// The name of the script's file.
        script: String,
        /// How the chip is made.
        options: ChipOptions,
        /// The most bytes that a piece of the stream has, from 1 to 256.
        piece: u16,
    },
    /// Chip and probe in one process, over a script that may set software breakpoints.
    Soft {
        /// The name of the image's file.
        image: String,
        /// The name of the script's file.
        script: String,
        /// How the chip is made.
        options: ChipOptions,
        /// The most bytes that a piece of the stream has, from 1 to 256.
        piece: u16,
    },
    /// The probe alone.
    Probe {
        /// The address of the target.
        at: String,
        /// The name of the script's file.
        script: String,
        /// The devices beside the chip, where it is in a chain.
        chain: Option<ChainPlan>,
    },
    /// The probe alone, which loads an ELF file and then runs the script.
    ProbeElf {
        /// The address of the target.
        at: String,
        /// The name of the ELF file.
        file: String,
        /// The name of the script's file.
        script: String,
    },
    /// The probe alone, over a script that may set software breakpoints.
    ProbeSoft {
        /// The address of the target.
        at: String,
        /// The name of the script's file.
        script: String,
    },
    /// The chip alone.
    Chip {
        /// The address at which the chip waits for its client.
        at: String,
        /// The name of the image's file.
        image: String,
        /// How the chip is made.
        options: ChipOptions,
        /// The devices beside the chip, where it is in a chain.
        chain: Option<ChainPlan>,
    },
    /// A recording of a wire.
    Sniff {
        /// The name of the file of the recorded stream.
        stream: String,
        /// The name of the file of the answers that came to it.
        answers: String,
        /// Whether it is drawn as a waveform, and not listed.
        waves: bool,
    },
}

/// Where image and script come from.
#[derive(Debug, PartialEq, Eq, Drop)]
pub enum Inputs {
    /// From two files.
    Files {
        /// The name of the image's file.
        image: String,
        /// The name of the script's file.
        script: String,
    },
    /// Made from a number.
    Gen(u64),
}

/// How the stream goes to a chip in the same process.
#[derive(Drop)]
pub enum Way {
    /// Straight to the chip.
    Straight,
    /// Over a connection of the machine to itself.
    Looped,
    /// To a chain of the chip and these devices beside it.
    Chained(ChainPlan),
}

/// How a chip is made.
#[derive(Clone, Copy, Debug, PartialEq, Eq)]
pub struct ChipOptions {
    /// How many harts it has.
    pub harts: u64,
    /// How many bytes of memory it has.
    pub ram: u64,
    /// Whether the harts stand halted at the start.
    pub halted: bool,
    /// The number from which the schedule is made.
    pub seed: u64,
    /// In how many rounds each event of the schedule comes once, from 1 to 32.
    pub busy: u8,
    /// The chip's limit of events: how many points a rise of TCK may find, from 1 to 2^62.
    pub events: u64,
    /// The release of the debug specification that it follows.
    pub version: Version,
}
