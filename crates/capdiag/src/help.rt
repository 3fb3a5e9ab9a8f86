//! What the program tells of itself.

ghost use Rattle.std.specs.Prelude.{◌≡◌, ◌≢◌, [], Err, Some, false};
ghost use Rattle.cap_program.specs.Doings.{IsCounted, IsDone};
ghost use Rattle.capdiag.specs.{declared.orders.Order.TheVariants.{Help, Version}, Answers.{Fails, Shows}};

use cap_log::Sink;
use cap_program::{Fault, show};

/// Pushes how the program is used.
#[tactic(auto, unfolding(crate::specs::Showings::help_text))]
pub fn show_help<K: Sink>(out: &mut K) -> Result<u8, Fault>
    ensures done { IsDone (Shows (Some Help) [] false) (Fails (Some Help) []) (K.took out.old out.new) result }
    ensures unread { result ≢ Err Fault.Read }
    ensures written { IsCounted Fault.Write result (K.faults out.old) (K.faults out.new) }
{
    show(
        b"usage: capdiag why [--origins] [--freed held|used|both] [--owned] [--owners] [OPTION..] [FILE..]\n       capdiag heap [--report] [--why] [OPTION..] [FILE..]\n       capdiag run [--freed held|used|both] [--owned] [--owners] [--why] [OPTION..] [FILE..]\n       capdiag --help | --version\n\nJudge logs, from FILEs or standard input. See capdiag(1).\n\n  why   the log of a machine or of a run: the verdict and a diagnosis\n  heap  the log of an allocator: the verdict\n  run   the run log of a program: the verdict\n\n  --origins    after a yes, the root of each tagged capability\n  --freed      what is asked of freed objects in a run log:\n               held: no place holds them when their memory is allocated again\n               used: no access goes through their capabilities\n               both: both\n  --owned      in a run log, live objects are accessed through their own capabilities\n  --owners     after a yes to a run log, the objects and the places that they own\n  --report     after a yes, what exact bounds would cost\n  --why        after a no, the diagnosis\n  --context N  after a no, the last N lines and those that wrote the registers\n  --json       an object of JSON for each file, on a line of its own\n  --progress   on standard error, how far the reading is\n\nExit status: 0 yes, 1 no, 2 wrong arguments, 3 failed input, output or memory.\n",
        out,
    )
}

/// Pushes its version.
pub fn show_version<K: Sink>(out: &mut K) -> Result<u8, Fault>
    ensures done { IsDone (Shows (Some Version) [] false) (Fails (Some Version) []) (K.took out.old out.new) result }
    ensures unread { result ≢ Err Fault.Read }
    ensures written { IsCounted Fault.Write result (K.faults out.old) (K.faults out.new) }
{
    show(b"capdiag 1.3.0-dev\n", out)
}
