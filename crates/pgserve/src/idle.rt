//! What is sent in idle time, which lines `later` of a script say: notifications of other sessions, and settings.
//!
//! PostgreSQL manual, "Asynchronous Operations" of the protocol.

ghost use Rattle.pgp_session.specs.declared.transaction.Status.TheVariants.{Idle};
ghost use Rattle.pgserve.specs.Ready.{EndsReady, Says};
ghost use Rattle.pgserve.specs.Sent.{Informs};

use crate::channels::put_notification;
use crate::fault::Fault;
use crate::outbox::Outbox;
use crate::part::pause_of;
use crate::pause::Pause;
use crate::reader::Reader;
use crate::reading::{pair_of, setting_of};
use crate::script::Pair;
use crate::settings::Settings;
use pgp_message_write as reply;
use pgp_session::transaction::Status;

/// What a line `later` says.
#[derive(Drop)]
pub(crate) enum Later {
    /// A notification of the process of this number.
    Notify(i32, Pair),
    /// A setting that changes.
    Set(Pair),
    Wait(Pause),
}

/// The notification of this line: the number of a process, a channel and a text.
fn notification_of(line: &str, reader: &mut Reader) -> Later {
    let (process, pair) = line.split_once(' ').unwrap_or((line, ""));
    let wanted = "the number of a process stands here";
    let number = reader.found(process.parse().ok(), wanted, 0);
    reader.base = reader.base.saturating_add(process.len()).saturating_add(1);
    Later::Notify(number, pair_of(pair, reader))
}

/// What this line says.
pub(crate) fn later_of(line: &str, reader: &mut Reader) -> Later {
    let (word, rest) = line.split_once(' ').unwrap_or((line, ""));
    if !matches!(word, "notify" | "setting" | "wait") {
        reader.wrong("notify, setting or wait stands here");
    }
    reader.base = word.len().saturating_add(1);
    let later = match word {
        "notify" => notification_of(rest, reader),
        "setting" => Later::Set(setting_of(rest, reader)),
        _ => Later::Wait(pause_of(rest, reader)),
    };
    reader.base = 0;
    later
}

/// Appends that the server is ready, and returns whether idle time begins: whether that was appended, and no transaction is open.
#[tactic(auto, unfolding(pgp_base::specs::Held::lengthened))]
pub(crate) fn put_ready(status: Status, out: &mut Outbox) -> bool
    ensures { Says status result out.old.bytes.items out.new.bytes.items out.new.fault }
{
    match reply::ready_for_query(status.letter(), &mut out.bytes) {
        Ok(()) => status == Status::Idle,
        Err(why) => {
            out.fail(Fault::from(why));
            false
        }
    }
}

/// Appends what is sent in idle time, right behind the ReadyForQuery that begins it.
pub(crate) fn put_later(
    list: &[&Later],
    settings: &mut Settings,
    pauses: &mut Vec<Pause>,
    out: &mut Outbox,
)
    requires { EndsReady Idle out.old.bytes.items }
    ensures { Informs out.old.bytes.items out.new.bytes.items }
{
    for later in list {
        match later {
            Later::Notify(process, pair) => put_notification(*process, pair, out),
            Later::Set(pair) => {
                settings.begin(&pair.name, &pair.value, out);
                settings.report(out);
            }
            Later::Wait(pause) => out.add(pauses, pause.shifted(out.len())),
        }
    }
}
