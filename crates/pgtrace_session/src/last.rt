//! What is left of a side.

ghost use Rattle.std.specs.Prelude.{◌≡◌, ◌++◌, OnErr, OnOk, string_bytes};
ghost use Rattle.pgtrace_lines.specs.Steps.{view_of};
ghost use Rattle.pgtrace_session.specs.Conversation.{last_of, told_by};
ghost use Rattle.pgtrace_session.specs.Pieces.{held_last};
ghost use Rattle.pgtrace_session.specs.Requests.{summary_in, unnumbered};
ghost use Rattle.pgtrace_session.specs.Steps.{kept_of, numbers_in};

use crate::chunk::Sender;
use crate::connection::{Half, Talk};
use crate::frames::Texts;
use crate::line_mark::{put_last_mark, put_marked};
use crate::numbers::{summary_of, unnumbered};
use crate::placement::{Told, told_by};
use crate::request_mark::put_word;
use crate::start::Start;
use crate::table::put_table;
use pgp_base::Memory;
use pgtool_line::line::add_line;
use pgtrace_lines::stream::put_rest;
use pgtrace_lines::view::View;
use pgtrace_summary::MapMemory;
use std::alloc::AllocError;

/// Adds what stands at the end of a recording: the last lines of both sides, or the table of a summary.
pub fn add_end<A: MapMemory>(
    view: View<'_>,
    talk: &Talk<A>,
    texts: &mut Texts<A>,
) -> Result<(), AllocError>
    ensures text { OnOk result (string_bytes texts.new.lines ≡ string_bytes texts.old.lines ++ held_last (view_of view.entry) (kept_of talk.now)) }
    ensures lacks { OnErr result A.Lacks }
{
    match summary_of(&talk.known.numbers) {
        Some(summary) => put_table(view, summary, &mut texts.word, &mut texts.lines),
        None => add_both(view, talk, texts),
    }
}

/// Adds the last lines of both sides.
fn add_both<A: MapMemory>(
    view: View<'_>,
    talk: &Talk<A>,
    texts: &mut Texts<A>,
) -> Result<(), AllocError>
    ensures text { OnOk result (string_bytes texts.new.lines ≡ string_bytes texts.old.lines
        ++ (last_of (view_of view.entry) talk.now.start (told_by talk.now.known.marked (unnumbered (numbers_in talk.now.known.numbers))) Sender.Client talk.now.client.stopped talk.now.client.left
        ++ last_of (view_of view.entry) talk.now.start (told_by talk.now.known.marked (unnumbered (numbers_in talk.now.known.numbers))) Sender.Server talk.now.server.stopped talk.now.server.left)) }
    ensures lacks { OnErr result A.Lacks }
{
    let told = told_by(talk.known.marked, unnumbered(&talk.known.numbers));
    add_last(view, talk.start, told, Sender::Client, &talk.client, texts)?;
    add_last(view, talk.start, told, Sender::Server, &talk.server, texts)
}

/// Adds the last line of a side, if bytes are left of it, with a mark that says this of requests.
fn add_last<A: MapMemory>(
    view: View<'_>,
    start: Start,
    told: Told,
    sender: Sender,
    half: &Half<A>,
    texts: &mut Texts<A>,
) -> Result<(), AllocError>
    ensures text { OnOk result (string_bytes texts.new.lines ≡ string_bytes texts.old.lines ++ last_of (view_of view.entry) start told sender half.now.stopped half.now.left) }
    ensures lacks { OnErr result A.Lacks }
{
    if half.left == 0 {
        return Ok(());
    }
    texts.line.clear();
    put_rest(view.style, half.stopped, half.left, &mut texts.line)?;
    put_last_mark(view.style.form, start, sender, &mut texts.mark)?;
    put_word(view.style.form, told, &mut texts.word, &mut texts.mark)?;
    put_marked(
        view.style.form,
        texts.mark.as_str(),
        texts.line.as_str(),
        &mut texts.marked,
    )?;
    add_line(texts.marked.as_str(), &mut texts.lines)
}
