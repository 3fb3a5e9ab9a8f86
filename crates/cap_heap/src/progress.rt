//! The progress of a judge, line by line.

ghost use Rattle.std.specs.Prelude.{◌≡◌, ◌++◌, ◌∷◌, [], List, OnOk, IfErr, OnErr};
ghost use Rattle.cap_bounds.specs.declared.decoding.Interval.{Interval};
ghost use Rattle.cap_heap.specs.declared.{events.Event.Event, lines.HeapLine.TheVariants.{Happens, End}};
ghost use Rattle.cap_heap.specs.{Beginnings.{Beginning, due_of, lines_of}, HeapLines.IsHeapLineInRange};
ghost use Rattle.cap_heap.specs.declared.log_parts.LogPart.TheVariants as stages;

use crate::events::{Event, EventEnd};
use crate::heap::Heap;
use crate::lines::HeapLine;
use crate::log_parts::LogPart;
use crate::readers::read_heap_line;
use crate::refusal::HeapRefusal;
use crate::report::HeapReport;
use cap_bounds::Interval;
use std::alloc::Global;

/// The greatest number of events.
const MOST_EVENTS: u32 = 0xffff_ffff;

/// How far a log was read: its part, the live objects, how many events there were, and the report of them.
#[derive(Drop)]
pub(crate) struct Progress {
    pub alloc: Global,
    pub stage: LogPart,
    pub heap: Heap,
    pub events: u32,
    pub report: HeapReport,
}

impl Progress {
    ghost use Rattle.std.specs.Prelude.{◌≤◌, length};
    ghost use Rattle.cap_heap.specs.HeapWhys.{count_in, due_text};
    ghost use Rattle.cap_heap.specs.Progresses.{EndsLine, EndsText, Reaches, StandsFor, Stays, Takes, TakesText};

    /// Nothing was read.
    pub fn new(alloc: Global) -> Progress
        ensures stage { result.stage ≡ stages.Start }
    {
        Progress {
            alloc,
            stage: LogPart::Start,
            heap: Heap::new(alloc, Interval { base: 0, top: 0 }),
            events: 0,
            report: HeapReport::new(),
        }
    }

    /// How many events there were.
    #[tactic(auto, using(crate::proofs::ProgressLemmas::counted))]
    pub fn count(&self) -> u32
        ensures value { (beginning : Beginning) → StandsFor self.now beginning → result ≡ count_in (lines_of beginning) }
    {
        match self.stage {
            LogPart::Start | LogPart::Headed => 0,
            LogPart::Within | LogPart::Ended => self.events,
        }
    }

    /// Which lines may come.
    #[tactic(auto, using(crate::proofs::ProgressLemmas::due_headed, crate::proofs::ProgressLemmas::due_other))]
    pub fn due_text(&self) -> &'static [u8]
        ensures value { (beginning : Beginning) → StandsFor self.now beginning → result.now ≡ due_text (due_of beginning) }
        ensures short { length result.now ≤ 64 }
    {
        if self.stage == LogPart::Headed {
            b"root BASE TOP, the bounds of the heap"
        } else {
            b"malloc, free or one end line, and nothing after it"
        }
    }

    /// Takes a line, without its line feed.
    pub fn take_line(&mut self, text: &[u8]) -> Result<(), EventEnd>
        ensures ok { OnOk result (TakesText self.old text.now self.new) }
        ensures err { IfErr result (EndsText self.old text.now) }
        ensures stays { OnErr result (Stays self.old self.new) }
    {
        match self.stage {
            LogPart::Start if text == b"heap 1".as_slice() => {
                self.stage = LogPart::Headed;
                Ok(())
            }
            LogPart::Start => Err(EventEnd::Refused(HeapRefusal::BadHeader)),
            LogPart::Headed => self.take_root(text),
            LogPart::Within => self.take_within(text),
            LogPart::Ended => Err(EventEnd::Refused(HeapRefusal::Misplaced)),
        }
    }

    // Takes the second line.
    fn take_root(&mut self, text: &[u8]) -> Result<(), EventEnd>
        requires { self.old.stage ≡ stages.Headed }
        ensures ok { OnOk result (TakesText self.old text.now self.new) }
        ensures err { IfErr result (EndsText self.old text.now) }
        ensures stays { OnErr result (Stays self.old self.new) }
    {
        match read_heap_line(text) {
            Some(HeapLine::Root(bounds)) => {
                self.stage = LogPart::Within;
                self.heap = Heap::new(self.alloc, bounds);
                self.events = 0;
                self.report = HeapReport::new();
                Ok(())
            }
            Some(_) => Err(EventEnd::Refused(HeapRefusal::Misplaced)),
            None => Err(EventEnd::Refused(HeapRefusal::BadLine)),
        }
    }

    // Takes a later line.
    fn take_within(&mut self, text: &[u8]) -> Result<(), EventEnd>
        requires { self.old.stage ≡ stages.Within }
        ensures ok { OnOk result (TakesText self.old text.now self.new) }
        ensures err { IfErr result (EndsText self.old text.now) }
        ensures stays { OnErr result (Stays self.old self.new) }
    {
        match read_heap_line(text) {
            Some(line) => self.take_read(line),
            None => Err(EventEnd::Refused(HeapRefusal::BadLine)),
        }
    }

    // Takes a line that was read after the root.
    fn take_read(&mut self, line: HeapLine) -> Result<(), EventEnd>
        requires stage { self.old.stage ≡ stages.Within }
        requires range { IsHeapLineInRange line }
        ensures ok { OnOk result (Takes self.old line self.new) }
        ensures err { IfErr result (λ end. (root : Interval) (events : List Event)
            → Reaches self.old.heap self.old.report self.old.events root events → EndsLine root events line end) }
        ensures stays { OnErr result (Stays self.old self.new) }
    {
        match line {
            HeapLine::Happens(event) => self.happen(event),
            HeapLine::End(count) => self.end(count),
            _ => Err(EventEnd::Refused(HeapRefusal::Misplaced)),
        }
    }

    // An event happens, or it can't.
    fn happen(&mut self, event: Event) -> Result<(), EventEnd>
        requires range { IsHeapLineInRange (Happens event) }
        ensures ok { OnOk result ((root : Interval) (events : List Event) → Reaches self.old.heap self.old.report self.old.events root events
            → Reaches self.new.heap self.new.report self.new.events root (events ++ event ∷ [])) }
        ensures err { IfErr result (λ end. (root : Interval) (events : List Event)
            → Reaches self.old.heap self.old.report self.old.events root events → EndsLine root events (Happens event) end) }
        ensures stays { OnErr result ((root : Interval) (events : List Event) → Reaches self.old.heap self.old.report self.old.events root events
            → Reaches self.new.heap self.new.report self.new.events root events) }
        ensures stage { self.new.stage ≡ self.old.stage }
    {
        if self.events == MOST_EVENTS {
            return Err(EventEnd::Refused(HeapRefusal::LimitPassed));
        }
        match self.heap.happen(event) {
            Ok(()) => {
                self.events += 1;
                match event {
                    Event::Malloc { address, length } => {
                        self.report.add(address, length, self.heap.live() as u64);
                    }
                    Event::Free { .. } => {}
                }
                Ok(())
            }
            Err(end) => Err(end),
        }
    }

    // The end line comes.
    fn end(&mut self, count: u32) -> Result<(), EventEnd>
        requires stage { self.old.stage ≡ stages.Within }
        ensures ok { OnOk result (Takes self.old (End count) self.new) }
        ensures err { IfErr result (λ end. (root : Interval) (events : List Event)
            → Reaches self.old.heap self.old.report self.old.events root events → EndsLine root events (End count) end) }
        ensures stays { OnErr result (Stays self.old self.new) }
    {
        if count != self.events {
            return Err(EventEnd::Refused(HeapRefusal::WrongCount));
        }
        self.stage = LogPart::Ended;
        Ok(())
    }
}
