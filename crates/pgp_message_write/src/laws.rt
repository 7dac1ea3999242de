//! Laws on what a server sends: it is read back.

ghost use Rattle.std.specs.Prelude.{◌≡◌, ◌<◌, ◌^◌, ◌++◌, ◌∷◌, ℕ, List, [], false, map, length, None, Ok, Option};
ghost use Rattle.std.specs.List.{flat_map, AllByRecursion};
ghost use Rattle.std.specs.declared.ops.Range.{Range};
ghost use Rattle.pgp_base.specs.Items.{CountedItems, MarkedItems};
ghost use Rattle.pgp_base.specs.Wire.{HasNoZero};
ghost use Rattle.pgp_frontend.specs.Payload.{joined};
ghost use Rattle.pgp_message.specs.BackendMessage.{Message, Body, tag_of, payload_of};
ghost use Rattle.pgp_message.specs.Items.{ErrorPart, ErrorFieldSpelled, ErrorFieldRefused, FieldPart, FieldSpelled, FieldRefused, FormatSpelled, FormatRefused, RangeSpelled, RangeRefused, TextSpelled, TextRefused, TypeSpelled, TypeRefused};
ghost use Rattle.pgp_message.specs.Stream.{TakesFrame, BackendRun};
ghost use Rattle.pgp_message.specs.Table.{value_at};
ghost use Rattle.pgp_message_write.specs.Lists.{column_parts, field_parts, format_parts, text_parts, type_parts, value_parts};
ghost use Rattle.pgp_message_write.specs.Reply.{parts, bytes_of, cause, IsInRange, IsReply, IsColumn, IsMechanism, IsOption, IsRowValue, fields_of, names_of};

/// The parts that are written are those that are read.
pub fn payloads_are_joined()
    ensures { (m : Message) → payload_of m ≡ joined (parts m) }
{}

/// What a writer appends is read as that message, and as nothing else.
pub fn replies_are_read()
    ensures { (m : Message) → IsInRange m → cause m ≡ None → Body (tag_of m) (joined (parts m)) (Ok m) }
{}

/// What a writer appends is taken off the front as that message, whatever follows.
pub fn one_reply_is_taken()
    ensures { (m : Message) (rest : List ℕ) → IsReply m → TakesFrame (bytes_of m ++ rest) (Ok m) rest }
{}

/// Replies one after the other are read as these messages, and nothing is left.
pub fn streams_are_read()
    ensures { (ms : List Message) → AllByRecursion IsReply ms → BackendRun (flat_map bytes_of ms) (map Ok ms) false [] }
{}

/// The columns that were described come back by the iterator over them.
pub fn columns_are_read()
    ensures { (columns : List FieldPart) → AllByRecursion IsColumn columns →
        CountedItems FieldSpelled FieldRefused (length columns) (joined (flat_map column_parts columns)) columns None }
{}

/// So do the types of parameters.
pub fn types_are_read()
    ensures { (types : List ℕ) → AllByRecursion (λ n. n < 2 ^ 32) types →
        CountedItems TypeSpelled TypeRefused (length types) (joined (flat_map type_parts types)) types None }
{}

/// So do the formats of a copy's columns.
pub fn formats_are_read()
    ensures { (formats : List ℕ) → AllByRecursion (λ n. n < 2 ^ 16) formats →
        CountedItems FormatSpelled FormatRefused (length formats) (joined (flat_map format_parts formats)) formats None }
{}

/// So do the options of an answer about versions, where they are UTF-8.
pub fn options_are_read()
    ensures { (options : List (List ℕ)) → AllByRecursion IsOption options →
        CountedItems TextSpelled TextRefused (length options) (joined (flat_map text_parts options)) options None }
{}

/// So do the names of mechanisms, where none is empty.
pub fn mechanisms_are_read()
    ensures { (names : List (List ℕ)) → AllByRecursion IsMechanism names →
        MarkedItems TextSpelled TextRefused (names_of names) names None }
{}

/// So do the fields of an error or a notice.
pub fn fields_are_read()
    ensures { (fields : List ErrorPart) → AllByRecursion (λ x. HasNoZero (x.code ∷ x.value)) fields →
        MarkedItems ErrorFieldSpelled ErrorFieldRefused (fields_of fields) fields None }
{}

/// So do the values of a row: the iterator gives places in the row's bytes at which they stand.
pub fn values_are_read()
    ensures { (vs : List (Option (List ℕ))) → AllByRecursion IsRowValue vs →
        (places : List (Option (Range ℕ))) × CountedItems RangeSpelled RangeRefused (length vs) (joined (flat_map value_parts vs)) places None
        × (map (value_at (joined (flat_map value_parts vs))) places ≡ vs) }
{}
