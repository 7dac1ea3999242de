//! Laws on the definitions that every crate of the port speaks of.

ghost use Rattle.std.specs.Prelude.{◌≡◌, ◌≢◌, ◌⊎◌, ℕ, ◌+◌, ◌<◌, ◌≤◌, ◌^◌, List, [], ◌∷◌, length, drop, Option, Some, None, Result, Err, IsOk, IfErr, true, false, All, FitsSigned};
ghost use Rattle.std.specs.Borrow.{Bor, GName};
ghost use Rattle.std.specs.Int.{w16, w32, w64};
ghost use Rattle.pgp_base.specs.Wire.{int16, int32, int64, uint16, uint32, uint64, oid, text, counted, nullable, IsBytes};
ghost use Rattle.pgp_base.specs.Cause.{Cause, text_cause, count_cause, nullable_cause, Wants, Writes};
ghost use Rattle.pgp_base.specs.Held.{Held, ◌⊕◌};
ghost use Rattle.pgp_base.specs.Window.{window_held, window_lacks};
ghost use Rattle.pgp_base.specs.declared.window.Window.{Window};
ghost use Rattle.pgp_base.specs.Reading.{BeginsNoOther, ReadsSpelling, ReadsTexts};
ghost use Rattle.pgp_base.specs.Grammar.{IsReader};
ghost use Rattle.pgp_base.specs.PartReading.{byte_at, uint16_at, oid_at, int16_at, int32_at, string_at, text_at};
ghost use Rattle.pgp_base.specs.WalkReading.{is_marked};
ghost use Rattle.pgp_base.specs.CountedRest.{Rest, IsDue, walk_of, rest_hint};
ghost use Rattle.pgp_base.specs.CountedWalk.{BeginsWalk, NextOf, SpelledFor, RefusedBy};
ghost use Rattle.pgp_base.specs.declared.error.Error.{Error};
ghost use Rattle.pgp_base.specs.Error.{number_of, plain};
ghost use Rattle.pgp_base.specs.Walk.{TakesFront, EndsStay, hint_of};

use crate::walk::FallibleIterator;

/// The numbers distinguish the variants.
pub fn numbers_differ()
    ensures { (d e : Error) → number_of d ≡ number_of e → plain d ≡ plain e }
{}

/// In a window what fits is always written: a writer of what has no cause writes it where it is no longer than the room that is
/// left, and wants memory where it is longer, and nowhere else.
pub fn what_fits_is_written()
    ensures wants { (old : Held (GName × ℕ)) (n : ℕ) → Wants window_lacks old n → window_lacks old n }
    ensures fits { (spelling : List ℕ) (cause : Cause) (old new : Window) (result : Result (Unit {0}) Error) → Writes spelling cause window_lacks (window_held old) (window_held new) result
        → cause ≡ None → length (window_held old).bytes + length spelling ≤ (window_held old).kept.1 → IsOk result × (window_held new ≡ window_held old ⊕ spelling) }
    ensures longer { (spelling : List ℕ) (cause : Cause) (old new : Window) (result : Result (Unit {0}) Error) → Writes spelling cause window_lacks (window_held old) (window_held new) result
        → cause ≡ None → window_lacks (window_held old) (length spelling) → result ≡ Err Error.OutOfMemory }
    ensures only { (spelling : List ℕ) (cause : Cause) (old new : Window) (result : Result (Unit {0}) Error) → Writes spelling cause window_lacks (window_held old) (window_held new) result
        → IfErr result (λ e. ((e ≡ Error.OutOfMemory) × window_lacks (window_held old) (length spelling)) ⊎ (cause ≡ Some e)) }
{}

/// An iterator at its end gives the same answer forever.
pub fn ends_stay<W: FallibleIterator>()
    ensures { EndsStay W.meaning }
{}

/// Numbers are read back, whatever follows them.
pub fn numbers_begin_no_other()
    ensures int16s { BeginsNoOther (FitsSigned w16) int16 }
    ensures int32s { BeginsNoOther (FitsSigned w32) int32 }
    ensures uint16s { BeginsNoOther (λ n. n < 2 ^ 16) uint16 }
    ensures int64s { BeginsNoOther (FitsSigned w64) int64 }
    ensures uint32s { BeginsNoOther (λ n. n < 2 ^ 32) uint32 }
    ensures uint64s { BeginsNoOther (λ n. n < 2 ^ 64) uint64 }
{}

/// A text ends at its 0 byte.
pub fn texts_begin_no_other()
    ensures { BeginsNoOther (λ z. text_cause z ≡ None) text }
{}

/// A value ends where its length says, and a null is no value's length.
pub fn values_begin_no_other()
    ensures { BeginsNoOther (λ v. nullable_cause v ≡ None) nullable }
{}

/// A counted list ends after its last item.
pub fn counted_lists_begin_no_other()
    ensures int16s { BeginsNoOther (λ zs. All (FitsSigned w16) zs × (count_cause (length zs) ≡ None)) (counted int16) }
    ensures oids { BeginsNoOther (λ ns. All (λ n. n < 2 ^ 32) ns × (count_cause (length ns) ≡ None)) (counted oid) }
    ensures values { BeginsNoOther (λ vs. All (λ v. nullable_cause v ≡ None) vs × (count_cause (length vs) ≡ None)) (counted nullable) }
{}

/// What the functions of `reading` take from the left is a part as it is written.
pub fn parts_are_read_as_written()
    ensures bytes { ReadsSpelling (λ n. n < 2 ^ 8) (λ n. n ∷ []) byte_at }
    ensures uint16s { ReadsSpelling (λ n. n < 2 ^ 16) uint16 uint16_at }
    ensures int16s { ReadsSpelling (FitsSigned w16) int16 int16_at }
    ensures int32s { ReadsSpelling (FitsSigned w32) int32 int32_at }
    ensures oids { ReadsSpelling (λ n. n < 2 ^ 32) oid oid_at }
    ensures strings { ReadsSpelling (λ z. text_cause z ≡ None) text string_at }
    ensures texts { ReadsTexts text_at }
    ensures marks { (bytes : List ℕ) → is_marked bytes ≡ true → bytes ≡ 0 ∷ drop 1 bytes }
    ensures no_marks { (bytes more : List ℕ) → is_marked bytes ≡ false → bytes ≢ 0 ∷ more }
{}

/// A `Counted` is the iterator that the grammar of its items describes: it begins as the one over the whole
/// buffer, and `due` with `take` after it is one call of `next`.
pub fn counted_walks_are_walked<T, V>()
    ensures begins { (read : ℕ → List ℕ → Result (V × List ℕ) Error) (n : ℕ) (buffer : List ℕ)
        → IsReader (SpelledFor read) (RefusedBy read) read → IsBytes buffer → BeginsWalk read n buffer }
    ensures next { (meaning : T → V) (read : List ℕ → Result (V × List ℕ) Error) (before middle after : Rest) (due : Result (Option (Bor (List ℕ))) Error) (r : Result (Option T) Error)
        → IsDue (λ bytes. bytes.now) before due middle → NextOf meaning read before due middle r after
        → TakesFront meaning (walk_of read before) r (walk_of read after) }
    ensures hint { (read : List ℕ → Result (V × List ℕ) Error) (rest : Rest) → rest_hint rest ≡ hint_of (walk_of read rest).announced }
{}
