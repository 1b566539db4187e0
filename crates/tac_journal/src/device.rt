//! The log of a connection of a device.

ghost use Rattle.std.specs.Prelude.{◌≡◌, List, ℕ, IfOk};
ghost use Rattle.tac_audit.specs.Noted.{noted_of, noted_of_each};
ghost use Rattle.tac_audit.specs.Witness.{AreTold};
ghost use Rattle.tac_audit.specs.declared.notice.Notice.{Notice as NoticeValue};
ghost use Rattle.tac_journal.specs.Device.{HasLines, HasLinesButLast, IsNoted};
ghost use Rattle.tac_journal.specs.Lines.{IsLineAt};

use crate::lines::line_of;
use crate::moment::Moments;
use crate::writer::{Append, log_lines};
use std::alloc::Global;
use std::time::Clock;
use tac_audit::{Notice, Origin, Refused, Witness};

/// A witness of one connection that writes a line to a log for each notice of which anything is
/// noted, by one append. A login is noted at its last reply, so its questions write nothing.
///
/// Once it has refused a notice, the connection is to be closed.
#[derive(Drop)]
pub struct DeviceLog<'a, C, F> {
    alloc: Global,
    clock: &'a C,
    moments: &'a Moments,
    log: F,
    origin: Origin,
}

impl<'a, C: Clock, F: Append + Drop> DeviceLog<'a, C, F> {
    /// That of a connection of this origin, from its beginning. The moments are those of the thread
    /// that serves it. Takes no memory.
    pub fn new(
        alloc: Global,
        clock: &'a C,
        moments: &'a Moments,
        log: F,
        origin: Origin,
    ) -> DeviceLog<'a, C, F>
        // Once it took these notices, one after another, the log took exactly the lines of what is
        // noted of them, in their order, each at some time.
        ensures lines { (notices : List NoticeValue) (now : _) →
            AreTold ⟦<DeviceLog<'a, C, F> as Witness<Notice>>⟧.takes result notices now →
            HasLines F.takes origin (noted_of_each notices) log now.log }
        // Once it then refused another, the log refused the line of that, or it never came there.
        ensures refused { (notices : List NoticeValue) (notice : NoticeValue) (between now : _) →
            AreTold ⟦<DeviceLog<'a, C, F> as Witness<Notice>>⟧.takes result notices between →
            ⟦<DeviceLog<'a, C, F> as Witness<Notice>>⟧.refuses between notice now →
            HasLinesButLast F.takes F.refuses origin (noted_of_each notices)
            (noted_of notice) log now.log }
    {
        DeviceLog {
            alloc,
            clock,
            moments,
            log,
            origin,
        }
    }

    // The line of a notice, at the present time, if it has one.
    fn line(&self, notice: &Notice) -> Result<Option<Vec<u8>>, Refused>
        ensures { IfOk result (λ line. (time : List ℕ)
            × IsLineAt time self.now.origin (noted_of notice.now) line) }
    {
        let time = self.moments.now(self.alloc, self.clock)?;
        let line = line_of(self.alloc, &time, &self.origin, notice)?;
        Ok(line)
    }

    // Appends it, if it has one.
    fn append(&mut self, notice: &Notice) -> Result<(), Refused>
        ensures line { IsNoted F.takes F.refuses result self.old.origin (noted_of notice.now)
            self.old.log self.new.log }
        ensures origin { self.new.origin ≡ self.old.origin }
    {
        match self.line(notice) {
            Ok(Some(line)) => log_lines(&mut self.log, Ok(line)),
            Ok(None) => Ok(()),
            Err(refused) => Err(refused),
        }
    }
}

impl<C: Clock, F: Append + Drop> Witness<Notice> for DeviceLog<'_, C, F> {
    ghost use Rattle.tac_journal.specs.Device as device;

    ghost takes = { λ was notice now. device.Takes F.takes
        (record { origin = was.origin; log = was.log }) notice
        (record { origin = now.origin; log = now.log }) };

    ghost refuses = { λ was notice now. device.Refuses F.refuses
        (record { origin = was.origin; log = was.log }) notice
        (record { origin = now.origin; log = now.log }) };

    fn tell(&mut self, notice: &Notice) -> Result<(), Refused> {
        if notice.goes_on() {
            return Ok(());
        }
        self.append(notice)
    }
}
