//! Reads and writes of the unit's registers. While a command is under way none of them changes a word or starts anything.

ghost use Rattle.std.specs.Prelude.{◌≡◌, option_map};
ghost use Rattle.debug_model.specs.Commands.{abstractauto_written, abstractcs_shown, abstractcs_written, auto_started, command_written, is_auto, noted_error};
ghost use Rattle.debug_model.specs.Commands.{with_word, word_in, word_read, word_written};
ghost use Rattle.debug_model.specs.ModuleWords.{abstractauto_word, abstractcs_word};

use super::CommandUnit;
use debug_model::{AbstractCommand, Abstractauto, Abstractcs, Cmderr, CommandWord};
use hart_debug::DebugHart;

/// The words of the program buffer.
const PROGRAM_WORDS: u8 = 4;

/// The data words.
const DATA_WORDS: u8 = 2;

/// The error behind one that is noted: one that is set stays.
fn noted(error: Cmderr, before: Cmderr) -> Cmderr
    ensures { result ≡ noted_error error before }
{
    match before {
        Cmderr::Fine => error,
        Cmderr::Busy => Cmderr::Busy,
        Cmderr::NotSupported => Cmderr::NotSupported,
        Cmderr::Exception => Cmderr::Exception,
        Cmderr::HaltResume => Cmderr::HaltResume,
    }
}

/// Whether an access to a word starts the kept command again.
fn is_auto(word: CommandWord, auto: Abstractauto) -> bool
    ensures { result ≡ is_auto word auto }
{
    match word {
        CommandWord::Data0 => auto.data0,
        CommandWord::Data1 => auto.data1,
        CommandWord::Progbuf0 => auto.progbuf0,
        CommandWord::Progbuf1 => auto.progbuf1,
        CommandWord::Progbuf2 => auto.progbuf2,
        CommandWord::Progbuf3 => auto.progbuf3,
    }
}

impl CommandUnit {
    /// What a word holds.
    pub fn word(&self, word: CommandWord) -> u32
        ensures { result ≡ word_in word self.now }
    {
        match word {
            CommandWord::Data0 => self.data0,
            CommandWord::Data1 => self.data1,
            CommandWord::Progbuf0 => self.progbuf0,
            CommandWord::Progbuf1 => self.progbuf1,
            CommandWord::Progbuf2 => self.progbuf2,
            CommandWord::Progbuf3 => self.progbuf3,
        }
    }

    /// A read of a word. Behind it the kept command starts on the selected hart where `abstractauto` says so;
    /// while a command is under way it notes the error 1.
    pub fn read_word(&mut self, word: CommandWord, hart: Option<&DebugHart>) -> u32
        ensures value { result ≡ word_in word self.old }
        ensures after { self.new ≡ word_read word (option_map (λ h. h.now) hart.entry) self.old }
    {
        let value = self.word(word);
        if self.is_busy() {
            self.note(Cmderr::Busy);
        } else {
            self.start_automatically(word, hart);
        }
        value
    }

    /// A write of a word. Behind it the kept command starts on the selected hart where `abstractauto` says so;
    /// while a command is under way it writes nothing and notes the error 1.
    pub fn write_word(&mut self, word: CommandWord, value: u32, hart: Option<&DebugHart>)
        ensures { self.new ≡ word_written word value (option_map (λ h. h.now) hart.entry) self.old }
    {
        if self.is_busy() {
            self.note(Cmderr::Busy);
            return;
        }
        self.set_word(word, value);
        self.start_automatically(word, hart);
    }

    /// The value of `abstractcs`.
    pub fn abstractcs(&self) -> u32
        ensures { result ≡ abstractcs_word (abstractcs_shown self.now) }
    {
        let shown = Abstractcs {
            progbufsize: PROGRAM_WORDS,
            busy: self.is_busy(),
            cmderr: self.error.number(),
            datacount: DATA_WORDS,
        };
        shown.word()
    }

    /// A write of `abstractcs`: it clears the bits of the error that are written 1. While a command is under way it is a late write.
    pub fn write_abstractcs(&mut self, word: u32)
        ensures { self.new ≡ abstractcs_written word self.old }
    {
        if self.is_busy() {
            self.late = true;
            return;
        }
        self.error = self.error.cleared(Abstractcs::from_word(word).cmderr);
    }

    /// A write of `command`: the command is kept and starts on the selected hart. With an error set it changes nothing;
    /// while a command is under way it is a late write.
    pub fn write_command(&mut self, word: u32, hart: Option<&DebugHart>)
        ensures { self.new ≡ command_written word (option_map (λ h. h.now) hart.entry) self.old }
    {
        if self.is_busy() {
            self.late = true;
            return;
        }
        match self.error {
            Cmderr::Fine => {
                self.command = AbstractCommand::from_word(word);
                self.start(hart);
            }
            Cmderr::Busy => {}
            Cmderr::NotSupported => {}
            Cmderr::Exception => {}
            Cmderr::HaltResume => {}
        }
    }

    /// The value of `abstractauto`.
    pub fn abstractauto(&self) -> u32
        ensures { result ≡ abstractauto_word self.now.auto }
    {
        self.auto.word()
    }

    /// A write of `abstractauto`. While a command is under way it is a late write.
    pub fn write_abstractauto(&mut self, word: u32)
        ensures { self.new ≡ abstractauto_written word self.old }
    {
        if self.is_busy() {
            self.late = true;
            return;
        }
        self.auto = Abstractauto::from_word(word);
    }

    /// Notes an error, where none is set.
    pub(super) fn note(&mut self, error: Cmderr)
        ensures { self.new ≡ record self.old { error = noted_error error self.old.error } }
    {
        self.error = noted(error, self.error);
    }

    /// A word takes a value.
    fn set_word(&mut self, word: CommandWord, value: u32)
        ensures { self.new ≡ with_word word value self.old }
    {
        match word {
            CommandWord::Data0 => self.data0 = value,
            CommandWord::Data1 => self.data1 = value,
            CommandWord::Progbuf0 => self.progbuf0 = value,
            CommandWord::Progbuf1 => self.progbuf1 = value,
            CommandWord::Progbuf2 => self.progbuf2 = value,
            CommandWord::Progbuf3 => self.progbuf3 = value,
        }
    }

    /// Behind an access to a word: the kept command starts where `abstractauto` says so.
    fn start_automatically(&mut self, word: CommandWord, hart: Option<&DebugHart>)
        ensures { self.new ≡ auto_started word (option_map (λ h. h.now) hart.entry) self.old }
    {
        if is_auto(word, self.auto) {
            self.start(hart);
        }
    }
}
