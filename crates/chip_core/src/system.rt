//! All of a chip but its clock and its schedule.

ghost use Rattle.std.specs.Prelude.{◌≡◌, length};
ghost use Rattle.debug_model.specs.Chip.{at_limit};
ghost use Rattle.debug_model.specs.Chip.{no_counts};
ghost use Rattle.debug_model.specs.Module.{reset_module};
ghost use Rattle.debug_model.specs.Port.{reset_port};
ghost use Rattle.debug_model.specs.Transport.{fresh_dtm};
ghost use Rattle.rv_model.specs.Memory.{hart_places};
ghost use Rattle.std.specs.Prelude.{◌≤◌, [], vec_len};
ghost use Rattle.debug_model.specs.Loaded.{RightLimit};
ghost use Rattle.chip_core.specs.Counted.{IsCounted};
ghost use Rattle.chip_core.specs.Parts.{parts_held};

mod events;
mod rounds;

use dbg_module::Module;
use debug_model::Counts;
use hart_debug::DebugHart;
use jtag_dtm::Tap;
use rv_mem::Ram;
use rv_model::Version;
use std::marker::Model;
use sys_events::Journal;

/// A rise of TCK that finds so many rounds takes nothing.
const MOST_ROUNDS: u64 = 1 << 62;

/// The TAP and all that stands behind it.
#[derive(Drop)]
pub(crate) struct System {
    tap: Tap,
    debug_module: Module,
    harts: Vec<DebugHart>,
    ram: Ram,
    journal: Journal,
    counts: Counts,
    most_points: u64,
}

impl Model for System {
    ghost use Rattle.std.specs.Coded.{codes};
    ghost use Rattle.std.specs.Prelude.{◌≤◌, vec_len};
    ghost use Rattle.rv_model.specs.Codes.{hart_code};
    ghost use Rattle.rv_model.specs.Memory.{hart_places, memory_code};
    ghost use Rattle.dbg_module.specs.Served.{IsServedBy};
    ghost use Rattle.debug_model.specs.Loaded.{RightLimit};
    ghost use Rattle.chip_core.specs.Parts.{Parts};

    ghost Value = { Parts };

    ghost coded = { Prim.hlevel (codes, memory_code, hart_code) };

    ghost view = { λ s. record {
      port = s.tap.port;
      works = record {
        dtm = s.tap.dtm;
        site = record { unit = s.debug_module; board = record { harts = s.harts.items; memory = s.ram }; journal = s.journal };
        counts = s.counts;
        most_points = s.most_points;
      };
    } };

    ghost invariant = { λ s. RightLimit s.most_points × (vec_len s.harts ≤ hart_places) × IsServedBy s.debug_module s.harts.items };
}

impl System {
    /// These harts and this memory behind a TAP and a debug module of a release as a reset leaves them, with this limit of points. Nothing
    /// was noted or counted.
    pub(crate) fn new(version: Version, harts: Vec<DebugHart>, ram: Ram, most_points: u64) -> Self
        requires harts { vec_len harts ≤ hart_places }
        requires limit { RightLimit most_points }
        ensures system { result ≡ record {
          port = reset_port;
          works = record {
            dtm = fresh_dtm;
            site = record { unit = reset_module version; board = record { harts = harts.items; memory = ram }; journal = [] };
            counts = no_counts;
            most_points = most_points;
          };
        } }
        ensures counted { IsCounted 0 result.works }
    {
        System {
            tap: Tap::new(),
            debug_module: Module::of_version(version),
            harts,
            ram,
            journal: Journal::empty(),
            counts: Counts {
                rounds: 0,
                dmi_done: 0,
                dmi_busy: 0,
                dmi_failed: 0,
            },
            most_points,
        }
    }

    /// Whether the next rise takes nothing.
    #[inline(always)]
    pub(crate) fn is_at_limit(&self) -> bool
        ensures { result ≡ at_limit self.now.works }
    {
        self.journal.len() > self.most_points || self.counts.rounds >= MOST_ROUNDS
    }

    /// TRST takes this level.
    pub(crate) fn hold_reset(&mut self, on: bool)
        ensures { self.new ≡ parts_held on self.old }
    {
        self.tap.hold_reset(on);
    }

    /// The level of TDO.
    #[inline(always)]
    pub(crate) fn tdo(&self) -> bool
        ensures { result ≡ self.now.port.tdo }
    {
        self.tap.tdo()
    }

    /// The harts, each at the place of its number.
    pub(crate) fn harts(&self) -> &[DebugHart]
        ensures { result.now ≡ self.now.works.site.board.harts }
    {
        &self.harts
    }

    /// The memory of the harts.
    pub(crate) fn ram(&self) -> &Ram
        ensures { result.now ≡ self.now.works.site.board.memory }
    {
        &self.ram
    }

    /// What happened.
    pub(crate) fn journal(&self) -> &Journal
        ensures { result.now ≡ self.now.works.site.journal }
    {
        &self.journal
    }

    /// What was counted.
    pub(crate) fn counts(&self) -> Counts
        ensures { result ≡ self.now.works.counts }
    {
        self.counts
    }
}
