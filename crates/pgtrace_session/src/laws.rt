//! Laws of listings.

ghost use Rattle.std.specs.Prelude.{◌≡◌, ◌≢◌, ◌∷◌, ◌++◌, [], ℕ, Bool, List, Option, Some, true};
ghost use Rattle.pgp_client.specs.Talk.{Talk as Dialogue};
ghost use Rattle.pgp_client.specs.declared.stage.Stage.TheVariants.{Over};
ghost use Rattle.pgtrace_session.specs.Common.{IsPrinted, Form, Columns, Style, Tally, State, LineOf, Side, View, Sender, Start, End, Marking, Told};
ghost use Rattle.pgtrace_lines.specs.Secrets.{quietly};
ghost use Rattle.pgtrace_session.specs.AlikeRecordings.{AlikeRecordings};
ghost use Rattle.pgtrace_session.specs.Conversation.{Known, ListsChunks, ListsFrame, Talk, begins, side_in};
ghost use Rattle.pgtrace_session.specs.Marks.{ShowsTime, last_mark, mark, marked, word};
ghost use Rattle.pgtrace_session.specs.Order.{IsSplit};
ghost use Rattle.pgtrace_session.specs.Recording.{Chunk, EndsBy};
ghost use Rattle.pgtrace_session.specs.Requests.{Numbers, summary_in};
ghost use Rattle.pgtrace_session.specs.Secrets.{AlikeIn};
ghost use Rattle.pgtrace_session.specs.Session.{IsListing};
ghost use Rattle.pgtrace_session.specs.Session.{summarized};
ghost use Rattle.pgtrace_session.specs.Tables.{heading, row_of, table};
ghost use Rattle.pgtrace_session.specs.Turns.{AreTrue, turns_in};
ghost use Rattle.pgtrace_session.specs.Typed.{Said, ShowsTyped};
ghost use Rattle.pgtrace_session.specs.Types.{Types};

use pgp_value_text::laws::{one_text, texts_are_unique};

/// A recording has one listing, and one end.
pub fn one_listing()
    ensures { (view : View) (marking : Marking) (bytes output other : List ℕ) (end ending : End) → IsListing view marking bytes end output → IsListing view marking bytes ending other → (end ≡ ending) × (output ≡ other) }
{
    one_text();
    texts_are_unique();
}

/// Of each side the frames that were listed are, one after another, what that side sent in all its chunks, up to a rest in which none is whole: none is
/// listed twice, left out, or under the other side.
#[tactic(auto, using(crate::proofs::EachSide::each_side))]
pub fn each_side_is_listed()
    ensures { (view : View) (marking : Marking) (chunks : List Chunk) (lines : List ℕ) (talk : Talk) → ListsChunks view (begins marking) chunks lines talk → (who : Sender) → IsSplit who chunks talk }
{}

/// Where requests are numbered, and no message was found without a place, and no error ended the session: a server may send what was heard to the requests
/// under their numbers, in the order in which all of it was listed, and each message belongs to the request whose number its mark tells, and to no other. So it
/// is of the first chunks of a recording too, whatever comes after them: their listing and its turns stand at the front of the whole's.
pub fn numbers_say_where_messages_belong()
    ensures { (view : View) (marking : Marking) (chunks : List Chunk) (lines : List ℕ) (talk : Talk) (numbers : Numbers) (dialogue : Dialogue) (listed : ListsChunks view (begins marking) chunks lines talk)
        → talk.known.numbers ≡ Some numbers → numbers.dialogue ≡ Some dialogue → dialogue.stage ≢ Over → AreTrue (turns_in view (begins marking) chunks lines talk listed) }
{}

/// A mark has characters alone that a terminal prints, whatever it says of requests, and so has a line with its mark, as text or as an object, with values
/// as texts or without, before its newline.
pub fn marked_lines_are_printable()
    ensures lines { (style : Style) (place : ℕ) (from to : Side) (frame line : List ℕ) (form : Form) (who : Sender) (start : Start) (micros : ℕ) (time : List ℕ) (told : Told) → LineOf style place from frame line to →
        ShowsTime form start micros time → (text : List ℕ) × (marked form (mark form who time ++ word form told) line ≡ text ++ 10 ∷ []) × IsPrinted text }
    ensures typed { (style : Style) (place len : ℕ) (from to : Side) (frame line typed : List ℕ) (said : Said) (types : Option Types) (form : Form) (who : Sender) (start : Start) (micros : ℕ) (time : List ℕ) (told shown : Told) → LineOf style place from frame line to →
        ShowsTyped style place len told said types line typed → ShowsTime form start micros time → (text : List ℕ) × (marked form (mark form who time ++ word form shown) typed ≡ text ++ 10 ∷ []) × IsPrinted text }
    ensures marks { (form : Form) (who : Sender) (start : Start) (micros : ℕ) (time : List ℕ) (told : Told) → ShowsTime form start micros time → IsPrinted (mark form who time ++ word form told) }
    ensures last { (form : Form) (start : Start) (who : Sender) (told : Told) → IsPrinted (last_mark form start who ++ word form told) }
{}

/// Where a summary is asked for, nothing but its table is written.
pub fn summaries_are_tables()
    ensures { (view : View) (marking : Marking) (bytes output : List ℕ) (end : End) → marking.numbered ≡ true → marking.summed ≡ true → (listing : IsListing (summarized true view) marking bytes end output)
        → (summary : State) × (summary_in listing.talk.known.numbers ≡ Some summary) × (output ≡ table (summarized true view) summary.tallies) }
{}

/// A line of a table has characters alone that a terminal prints, before its newline.
#[tactic(auto, using(crate::proofs::PrintedTables::rows_printed, crate::proofs::PrintedTables::heading_printed))]
pub fn table_lines_are_printable()
    ensures rows { (style : Style) (whole : ℕ) (tally : Tally) → (text : List ℕ) × (row_of style whole tally ≡ text ++ 10 ∷ []) × IsPrinted text }
    ensures heading { (text : List ℕ) × (heading Columns ≡ text ++ 10 ∷ []) × IsPrinted text }
{}

/// A frame that differs from another one of its side in its secrets alone has the same text in a listing, and the same is known after it, unless secrets are
/// asked for.
#[tactic(auto, using(crate::proofs::Secrets::frames_hidden))]
pub fn secrets_are_hidden()
    ensures { (view : View) (mark : List ℕ) (who : Sender) (place : ℕ) (here to : Known) (frame other text : List ℕ) → AlikeIn (side_in who here) frame other
        → ListsFrame (quietly view) mark who place here frame text to → ListsFrame (quietly view) mark who place here other text to }
{}

/// Recordings that differ in their secrets alone have the same listing, unless secrets are asked for: cut into frames alike, each of which is like that of
/// the other recording in its place.
pub fn recordings_hide_their_secrets()
    ensures { (view : View) (marking : Marking) (begun : Bool) (rest bytes another : List ℕ) (end : End) → EndsBy begun rest end → AlikeRecordings (quietly view) marking begun rest bytes another →
        (output : List ℕ) × IsListing (quietly view) marking bytes end output × IsListing (quietly view) marking another end output }
{}
