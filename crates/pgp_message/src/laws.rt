//! Laws of bodies, of the lists inside them, and of streams of backend messages.

ghost use Rattle.std.specs.Prelude.{◌≡◌, ◌<◌, ◌≤◌, ℕ, Bool, true, false, List, [], ◌∷◌, ◌++◌, length, Some, None, Result, Err};
ghost use Rattle.pgp_base.specs.declared.error.Error.{Error};
ghost use Rattle.pgp_base.specs.declared.error.Error.TheVariants.{UnexpectedEof};
ghost use Rattle.pgp_base.specs.Wire.{IsBytes};
ghost use Rattle.pgp_base.specs.OneList.{HasOneCountedList, HasOneMarkedList};
ghost use Rattle.pgp_message.specs.BackendMessage.{Message, Body};
ghost use Rattle.pgp_message.specs.Items.{StringSpelled, StringRefused, TextSpelled, TextRefused, FormatSpelled, FormatRefused, TypeSpelled, TypeRefused, RangeSpelled, RangeRefused, FieldSpelled, FieldRefused, RawFieldSpelled, RawFieldRefused, ErrorFieldSpelled, ErrorFieldRefused};
ghost use Rattle.pgp_message.specs.Remembered.{Memory, Fits, header_of};
ghost use Rattle.pgp_message.specs.Stream.{BeginsWithHeader, Frames, BackendRun, TakesFrame};

/// A body has at most one result.
pub fn one_body()
    ensures { (tag : ℕ) (payload : List ℕ) (r s : Result Message Error) →
        IsBytes payload → Body tag payload r → Body tag payload s → r ≡ s }
{}

/// A body has a result.
pub fn some_body()
    ensures { (tag : ℕ) (payload : List ℕ) → IsBytes payload → (r : Result Message Error) × Body tag payload r }
{}

/// A key of fewer than 4 bytes, and an answer about versions whose numbers are cut, end too early.
pub fn cut_numbers_end_early()
    ensures keys { (payload : List ℕ) → IsBytes payload → length payload < 8 → Body 75 payload (Err UnexpectedEof) }
    ensures versions { (payload : List ℕ) → IsBytes payload → length payload < 8 → Body 118 payload (Err UnexpectedEof) }
{}

/// The columns of a copy have one list of formats.
pub fn one_list_of_formats()
    ensures { HasOneCountedList FormatSpelled FormatRefused }
{}

/// A statement has one list of parameters' types.
pub fn one_list_of_types()
    ensures { HasOneCountedList TypeSpelled TypeRefused }
{}

/// A row has one list of its values' places.
pub fn one_list_of_ranges()
    ensures { HasOneCountedList RangeSpelled RangeRefused }
{}

/// A row description has one list of columns, whether their names are text or not.
pub fn one_list_of_columns()
    ensures texts { HasOneCountedList FieldSpelled FieldRefused }
    ensures bytes { HasOneCountedList RawFieldSpelled RawFieldRefused }
{}

/// An error or a notice has one list of fields.
pub fn one_list_of_error_fields()
    ensures { HasOneMarkedList ErrorFieldSpelled ErrorFieldRefused }
{}

/// An offer of SASL mechanisms has one list of names, whether they are text or not.
pub fn one_list_of_mechanisms()
    ensures texts { HasOneMarkedList TextSpelled TextRefused }
    ensures bytes { HasOneMarkedList StringSpelled StringRefused }
{}

/// An answer about versions has one list of options, whether they are text or not.
pub fn one_list_of_options()
    ensures texts { HasOneCountedList TextSpelled TextRefused }
    ensures bytes { HasOneCountedList StringSpelled StringRefused }
{}

/// Each stream is read in one way.
pub fn one_run()
    ensures { (bytes : List ℕ) (first second : List (Result Message Error)) (stops halts : Bool) (rest left : List ℕ) →
        BackendRun bytes first stops rest → BackendRun bytes second halts left →
        (first ≡ second) × (stops ≡ halts) × (rest ≡ left) }
{}

/// Each stream of bytes is read in some way.
pub fn some_run()
    ensures { (bytes : List ℕ) → IsBytes bytes →
        (results : List (Result Message Error)) × (stopped : Bool) × (rest : List ℕ) × BackendRun bytes results stopped rest }
{}

/// What was read stands, whatever follows.
pub fn runs_grow()
    ensures { (bytes more : List ℕ) (first second : List (Result Message Error)) (stops halts : Bool) (rest left : List ℕ) →
        BackendRun bytes first stops rest → BackendRun (bytes ++ more) second halts left →
        (others : List (Result Message Error)) × (second ≡ first ++ others) }
{}

/// A stream that was stopped stays so, and what comes stays in the rest.
pub fn stops_stay()
    ensures { (bytes more rest : List ℕ) (results : List (Result Message Error)) →
        BackendRun bytes results true rest → BackendRun (bytes ++ more) results true (rest ++ more) }
{}

/// A stream that waits goes on with its rest and what comes.
pub fn waits_go_on()
    ensures { (bytes more rest left : List ℕ) (first second : List (Result Message Error)) (stops : Bool) →
        BackendRun bytes first false rest → BackendRun (rest ++ more) second stops left →
        BackendRun (bytes ++ more) (first ++ second) stops left }
{}

/// Where nothing came yet, nothing was read, and the stream waits.
pub fn no_bytes()
    ensures { BackendRun [] [] false [] }
{}

/// Before the first step no frame is read.
pub fn no_frame()
    ensures { (bytes : List ℕ) → Frames bytes [] bytes }
{}

/// A step along the stream reads one frame more.
pub fn next_frame()
    ensures { (bytes old new : List ℕ) (results : List (Result Message Error)) (r : Result Message Error) →
        Frames bytes results old → TakesFrame old r new → Frames bytes (results ++ r ∷ []) new }
{}

/// Frames that were read are the first of any stream that begins with their bytes.
pub fn frames_stand()
    ensures { (bytes more : List ℕ) (first second : List (Result Message Error)) (halts : Bool) (rest left : List ℕ) →
        Frames bytes first rest → BackendRun (bytes ++ more) second halts left →
        (others : List (Result Message Error)) × (second ≡ first ++ others) }
{}

/// Frames go on with their rest and what comes.
pub fn frames_go_on()
    ensures { (bytes more rest left : List ℕ) (first second : List (Result Message Error)) →
        Frames bytes first rest → Frames (rest ++ more) second left → Frames (bytes ++ more) (first ++ second) left }
{}

/// What is remembered fits still when bytes are added after.
pub fn bytes_may_come()
    ensures { (memory : Memory) (bytes more : List ℕ) → Fits memory bytes → Fits memory (bytes ++ more) }
{}

/// What is read as the header is what the bytes begin with; there is none below five bytes, and else there is one.
pub fn one_header()
    ensures spelled { (bytes : List ℕ) (header : BeginsWithHeader bytes) → header_of bytes ≡ Some (header.tag, header.len) }
    ensures short { (bytes : List ℕ) → length bytes < 5 → header_of bytes ≡ None }
    ensures long { (bytes : List ℕ) → IsBytes bytes → 5 ≤ length bytes → BeginsWithHeader bytes }
{}
