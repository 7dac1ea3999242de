//! The program's words.

ghost use Rattle.std.specs.Prelude.{◌≡◌, ◌⊎◌, ◌∷◌, ◌++◌, [], Some, codes, map, IfSome, IfNone, IfOk, IfErr, OnErr, OnOk};
ghost use Rattle.pgtrace_session.specs.Common.{Appends, GivesUp, StopsReading, Caused, AppendsFront, streams, chosen_of, options_in, view_by};
ghost use Rattle.pgtrace_lines.specs.Listing as stream;
ghost use Rattle.pgtrace_lines.specs.Steps.{side_of, view_of};
ghost use Rattle.pgtrace_session.specs.Command.{Asks, AsksSeveral, BreaksOff, Does, DoesSession, IsOther, Lists, Obeys, Prints, PrintsFront, ReadsFor, ReadsForOwn, ReadsForSession, ReadsForWords, Runs, RunsOwn, Stops, StopsSession, asked, complaint_of, is_fit, refusal, refusal_by, session_by, usage, word_of};
ghost use Rattle.pgtrace_session.specs.Command as spec;
ghost use Rattle.pgtrace_session.specs.Session as recording;

use crate::files::{Recordings, list_file, list_table};
use crate::outcome::{Ended, finished, refused, stopped, tell};
use crate::session::{list_session, summarized};
use pgp_base::Memory;
use pgtool_line::fault::Fault;
use pgtool_line::ports::{Output, Words};
use pgtool_line::print::put;
use pgtool_line::style::style_of;
use pgtool_line::words::{lent, texts};
use pgtrace_lines::line_names::unknown_in;
use pgtrace_lines::marking::Marking;
use pgtrace_lines::options::{Listing, Options, options_in, options_of};
use pgtrace_lines::ports::Input;
use pgtrace_lines::side::{Side, first_phase};
use pgtrace_lines::stream::list;
use pgtrace_lines::view::View;
use pgtrace_summary::MapMemory;
use std::alloc::AllocError;

const USAGE: &str =
    "usage: pgtrace server [--json] [--full] [--secrets] [--resume] [--only NAME[,NAME]..] [--except NAME[,NAME]..] [--color auto|always|never] | client [--json] [--full] [--secrets] [--resume] [--only NAME[,NAME]..] [--except NAME[,NAME]..] [--color auto|always|never] [--password-kind password|initial|response].. [--replication] | session [--json] [--full] [--secrets] [--requests] [--slower MS] [--raw] [--names] [--summary] [--fold] [--time absolute|relative] [--only NAME[,NAME]..] [--except NAME[,NAME]..] [--color auto|always|never] [FILE].. | --help | --version\n";

const VERSION: &str = "pgtrace 0.1.0\n";

/// The words ask for nothing that there is.
fn usage_error() -> Ended<'static>
    ensures status { result.status ≡ 2 }
    ensures complaint { result.first.now ++ result.second.now ++ result.third.now ≡ usage }
{
    refused(USAGE)
}

/// The words ask for nothing that there is: a name that no message has is said, or else how the program is called.
fn refusal<'a>(words: &[&'a str]) -> Ended<'a>
    ensures status { result.status ≡ 2 }
    ensures complaint { result.first.now ++ result.second.now ++ result.third.now ≡ refusal (map (λ word. word.now) words.now) }
{
    match unknown_in(words) {
        Some(name) => unknown(name),
        None => usage_error(),
    }
}

/// No message has this name.
fn unknown(name: &str) -> Ended<'_>
    ensures status { result.status ≡ 2 }
    ensures complaint { result.first.now ++ result.second.now ++ result.third.now ≡ refusal_by (Some name.now) }
{
    Ended {
        status: 2,
        first: "pgtrace: no message has the name ",
        second: name,
        third: "\n",
    }
}

/// What the words ask for.
#[derive(Drop)]
enum Command<'a, A: Memory> {
    Show {
        listing: Listing,
        options: Options<'a, A>,
    },
    Help,
    Version,
}

/// What the words ask for, where a terminal shows what is written or not.
fn command_of<'a, A: MapMemory>(
    alloc: A,
    terminal: bool,
    words: &[&'a str],
) -> Result<Option<Command<'a, A>>, AllocError>
    ensures known { IfOk result (λ r. IfSome r (λ command. Asks terminal (map (λ word. word.now) words.now) (asked command))) }
    ensures other { IfOk result (λ r. IfNone r (IsOther terminal (map (λ word. word.now) words.now) ⊎ AsksSeveral terminal (map (λ word. word.now) words.now))) }
    ensures lacks { OnErr result A.Lacks }
{
    match words {
        ["--help"] => return Ok(Some(Command::Help)),
        ["--version"] => return Ok(Some(Command::Version)),
        _ => {}
    }
    let Some((first, options)) = words.split_first() else {
        return Ok(None);
    };
    match *first {
        "server" => show(alloc, terminal, Listing::Server, options),
        "client" => show(alloc, terminal, Listing::Client, options),
        "session" => show(alloc, terminal, Listing::Session, options),
        _ => Ok(None),
    }
}

/// What the words after the one of a listing ask for.
fn show<'a, A: MapMemory>(
    alloc: A,
    terminal: bool,
    listing: Listing,
    words: &[&'a str],
) -> Result<Option<Command<'a, A>>, AllocError>
    ensures known { IfOk result (λ r. IfSome r (λ command. Asks terminal (word_of listing ∷ map (λ word. word.now) words.now) (asked command))) }
    ensures other { IfOk result (λ r. IfNone r (IsOther terminal (word_of listing ∷ map (λ word. word.now) words.now) ⊎ AsksSeveral terminal (word_of listing ∷ map (λ word. word.now) words.now))) }
    ensures lacks { OnErr result A.Lacks }
{
    let Some(options) = options_of(alloc, terminal, options_in(listing), words)? else {
        return Ok(None);
    };
    if !is_fit(&options) {
        return Ok(None);
    }
    Ok(Some(Command::Show { listing, options }))
}

/// Whether these options go together: there are several files for a table alone.
fn is_fit<A: MapMemory>(options: &Options<'_, A>) -> bool
    ensures { result ≡ is_fit (chosen_of options.now) }
{
    options.files.len() < 2 || options.marking.summed
}

/// How a listing with these options looks.
fn view_by<'a, A: MapMemory>(options: &'a Options<'_, A>) -> View<'a>
    ensures { view_of result ≡ view_by (chosen_of options.now) }
{
    View {
        style: style_of(options.json, options.full, options.secrets),
        only: options.only.as_slice(),
        except: options.except.as_slice(),
        colored: options.colored,
        slower: options.slower,
    }
}

/// How the listing of a recording with these options looks. With a summary no line of a message is written.
fn session_by<'a, A: MapMemory>(options: &'a Options<'_, A>) -> View<'a>
    ensures { view_of result ≡ session_by (chosen_of options.now) }
{
    let view = view_by(options);
    if options.marking.summed {
        summarized(view)
    } else {
        view
    }
}

/// Lists what a side sent.
fn list_side<A: MapMemory, R: Input, W: Output>(
    alloc: A,
    view: View<'_>,
    side: Side<'_>,
    input: &mut R,
    output: &mut W,
) -> Result<Ended<'static>, Fault>
    requires live { stream.ReadsWhenReady R.remaining W.contents W.Passed R.MayRead (view_of view) (side_of side) input.old output.old }
    ensures passed { OnOk result (W.Passed output.new) }
    ensures done { IfOk result (λ ended. Lists (view_of view.entry) (side_of side.entry) (streams (R.remaining input.old) (W.contents output.old)) (streams (R.remaining input.new) (W.contents output.new)) ended.status (ended.first.now ++ ended.second.now ++ ended.third.now)) }
    ensures stops { IfErr result (λ fault. BreaksOff (W.Passed output.new) (view_of view.entry) (side_of side.entry) fault (streams (R.remaining input.old) (W.contents output.old)) (streams (R.remaining input.new) (W.contents output.new))) }
    ensures cause { IfErr result (Caused A.Lacks (StopsReading R.Fails R.Called) (GivesUp W.Fails W.Interrupted)) }
{
    match list(alloc, view, side, input, output) {
        Ok(said) => Ok(finished(said)),
        Err(fault) => Err(fault),
    }
}

/// Prints a text. Nothing is to be said then.
fn print<W: Output>(text: &str, output: &mut W) -> Result<Ended<'static>, Fault>
    ensures written { OnOk result (Appends (W.contents output.old) (W.contents output.new) text.now) }
    ensures front { OnErr result (AppendsFront (W.contents output.old) (W.contents output.new) text.now) }
    ensures silent { IfOk result (λ ended. ended.first.now ++ ended.second.now ++ ended.third.now ≡ []) }
    ensures fine { IfOk result (λ ended. ended.status ≡ 0) }
    ensures passed { OnOk result (W.Passed output.new) }
    ensures fault { IfErr result (λ fault. fault ≡ Fault.Write) }
    ensures failed { OnErr result (GivesUp W.Fails W.Interrupted) }
{
    put(text.as_bytes(), output)?;
    Ok(finished(""))
}

/// Shows a listing by these options.
fn list_by<A: MapMemory, R: Recordings, W: Output>(
    alloc: A,
    listing: Listing,
    options: &Options<'_, A>,
    input: &mut R,
    output: &mut W,
) -> Result<Ended<'static>, Fault>
    requires live { ReadsFor R.remaining W.contents W.Passed R.MayRead (spec.Show listing (chosen_of options.now)) input.old output.old }
    ensures passed { OnOk result (W.Passed output.new) }
    ensures done { IfOk result (λ ended. Does R.Gives (spec.Show listing (chosen_of options.now)) (streams (R.remaining input.old) (W.contents output.old)) (streams (R.remaining input.new) (W.contents output.new)) ended.status (ended.first.now ++ ended.second.now ++ ended.third.now)) }
    ensures stops { IfErr result (λ fault. Stops R.Gives (W.Passed output.new) (spec.Show listing (chosen_of options.now)) fault (streams (R.remaining input.old) (W.contents output.old)) (streams (R.remaining input.new) (W.contents output.new))) }
    ensures cause { IfErr result (Caused A.Lacks (StopsReading R.Fails R.Called) (GivesUp W.Fails W.Interrupted)) }
{
    match listing {
        Listing::Server => {
            let side = Side::Server(first_phase(options.resume));
            list_side(alloc, view_by(options), side, input, output)
        }
        Listing::Client => {
            let side = Side::Client {
                opened: options.resume,
                kinds: options.kinds.as_slice(),
                replicating: options.replicating,
            };
            list_side(alloc, view_by(options), side, input, output)
        }
        Listing::Session => list_sessions(alloc, options, input, output),
    }
}

/// Lists the recording of the reader, or that in a file, or writes the table of those in several files.
fn list_sessions<A: MapMemory, R: Recordings, W: Output>(
    alloc: A,
    options: &Options<'_, A>,
    input: &mut R,
    output: &mut W,
) -> Result<Ended<'static>, Fault>
    requires live { ReadsForSession R.remaining W.contents W.Passed R.MayRead (chosen_of options.now).files (session_by (chosen_of options.now)) options.now.marking input.old output.old }
    ensures passed { OnOk result (W.Passed output.new) }
    ensures done { IfOk result (λ ended. DoesSession R.Gives (chosen_of options.now).files (session_by (chosen_of options.now)) options.now.marking (streams (R.remaining input.old) (W.contents output.old)) (streams (R.remaining input.new) (W.contents output.new)) ended.status (ended.first.now ++ ended.second.now ++ ended.third.now)) }
    ensures stops { IfErr result (λ fault. StopsSession R.Gives (W.Passed output.new) (chosen_of options.now).files (session_by (chosen_of options.now)) options.now.marking fault (streams (R.remaining input.old) (W.contents output.old)) (streams (R.remaining input.new) (W.contents output.new))) }
    ensures cause { IfErr result (Caused A.Lacks (StopsReading R.Fails R.Called) (GivesUp W.Fails W.Interrupted)) }
{
    let view = session_by(options);
    let marking = options.marking;
    match options.files.as_slice() {
        [] => list_session(alloc, view, marking, input, output),
        [name] => list_file(alloc, view, marking, name, input, output),
        names => list_table(alloc, view, marking, names, input, output),
    }
}

/// Does what the command asks for.
fn perform<A: MapMemory, R: Recordings, W: Output>(
    alloc: A,
    command: &Command<'_, A>,
    input: &mut R,
    output: &mut W,
) -> Result<Ended<'static>, Fault>
    requires live { ReadsFor R.remaining W.contents W.Passed R.MayRead (asked command.now) input.old output.old }
    ensures passed { OnOk result (W.Passed output.new) }
    ensures done { IfOk result (λ ended. Does R.Gives (asked command.now) (streams (R.remaining input.old) (W.contents output.old)) (streams (R.remaining input.new) (W.contents output.new)) ended.status (ended.first.now ++ ended.second.now ++ ended.third.now)) }
    ensures stops { IfErr result (λ fault. Stops R.Gives (W.Passed output.new) (asked command.now) fault (streams (R.remaining input.old) (W.contents output.old)) (streams (R.remaining input.new) (W.contents output.new))) }
    ensures cause { IfErr result (Caused A.Lacks (StopsReading R.Fails R.Called) (GivesUp W.Fails W.Interrupted)) }
{
    match command {
        Command::Show { listing, options } => list_by(alloc, *listing, options, input, output),
        Command::Help => print(USAGE, output),
        Command::Version => print(VERSION, output),
    }
}

/// Does what the words ask for, where a terminal shows what is written or not.
pub fn obey<'a, A: MapMemory, R: Recordings, W: Output>(
    alloc: A,
    terminal: bool,
    words: &[&'a str],
    input: &mut R,
    output: &mut W,
) -> Ended<'a>
    requires live { ReadsForWords R.remaining W.contents W.Passed R.MayRead terminal (map (λ word. word.now) words.now) input.old output.old }
    ensures { Obeys R.Gives terminal A.Lacks R.Fails R.Called (GivesUp W.Fails W.Interrupted) (W.Passed output.new) (map (λ word. word.now) words.now) (streams (R.remaining input.old) (W.contents output.old)) (streams (R.remaining input.new) (W.contents output.new)) result.status (result.first.now ++ result.second.now ++ result.third.now) }
{
    let command = match command_of(alloc, terminal, words) {
        Ok(Some(command)) => command,
        Ok(None) => return refusal(words),
        Err(_) => return stopped(Fault::Memory),
    };
    match perform(alloc, &command, input, output) {
        Ok(ended) => ended,
        Err(fault) => stopped(fault),
    }
}

/// Does what the words ask for, where a terminal shows what is written or not, says on `errors` what is to be said there, and returns the status.
///
/// Where `errors` fails, a front of that is said.
pub fn run<A: MapMemory, R: Recordings, W: Output, E: Output>(
    alloc: A,
    terminal: bool,
    words: &[&str],
    input: &mut R,
    output: &mut W,
    errors: &mut E,
) -> u8
    requires live { ReadsForWords R.remaining W.contents W.Passed R.MayRead terminal (map (λ word. word.now) words.now) input.old output.old }
    ensures { Runs R.Gives terminal A.Lacks R.Fails R.Called (GivesUp W.Fails W.Interrupted) (W.Passed output.new) (GivesUp E.Fails E.Interrupted) (E.Passed errors.new) (map (λ word. word.now) words.now) (streams (R.remaining input.old) (W.contents output.old)) (streams (R.remaining input.new) (W.contents output.new)) (E.contents errors.old) (E.contents errors.new) result }
{
    tell(obey(alloc, terminal, words, input, output), errors)
}

/// Runs on the words of the process, after its name, where a terminal shows what is written or not. A word that isn't UTF-8 asks for nothing that there is.
pub fn run_own<A: MapMemory, V: Words, R: Recordings, W: Output, E: Output>(
    alloc: A,
    terminal: bool,
    env: &V,
    input: &mut R,
    output: &mut W,
    errors: &mut E,
) -> u8
    requires live { ReadsForOwn R.remaining W.contents W.Passed R.MayRead terminal (V.Stands env.now) (V.Ends env.now) input.old output.old }
    ensures { RunsOwn R.Gives terminal A.Lacks R.Fails R.Called (GivesUp W.Fails W.Interrupted) (W.Passed output.new) (V.Stands env.now) (V.Ends env.now) (V.Longer env.now) (GivesUp E.Fails E.Interrupted) (E.Passed errors.new) (streams (R.remaining input.old) (W.contents output.old)) (streams (R.remaining input.new) (W.contents output.new)) (E.contents errors.old) (E.contents errors.new) result }
{
    let texts = match texts(alloc, env) {
        Ok(Some(texts)) => texts,
        Ok(None) => return tell(usage_error(), errors),
        Err(_) => return tell(stopped(Fault::Memory), errors),
    };
    match lent(alloc, texts.as_slice()) {
        Ok(words) => run(alloc, terminal, words.as_slice(), input, output, errors),
        Err(_) => tell(stopped(Fault::Memory), errors),
    }
}
