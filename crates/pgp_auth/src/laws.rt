//! Laws on the definitions of this crate.

ghost use Rattle.std.specs.Prelude.{◌≡◌, ◌≢◌, ◌↔◌, ◌⊎◌, codes, ℕ, ◌<◌, Bool, true, List, [], ◌∷◌, ◌++◌, Some, All, length, slice_get, OnOk, IfErr};
ghost use Rattle.sha2.specs.Sha256.{sha256};
ghost use Rattle.pgp_base.specs.Wire.{IsBytes};
ghost use Rattle.pgp_auth.specs.Base64.{base64, Shows};
ghost use Rattle.pgp_auth.specs.IteratedKey.{salted};
ghost use Rattle.pgp_auth.specs.Lexer.{Literal, Identifier, IsPlain, NeedsNoEscape, single_quote, double_quote};
ghost use Rattle.pgp_auth.specs.Md5Text.{md5_text, md5_verifier, md5_answer, AnswersStored};
ghost use Rattle.pgp_auth.specs.Verifier.{Verifier, verifier, verifier_text};
ghost use Rattle.pgp_auth.specs.ScramText.{Binding, client_first, first_bare};
ghost use Rattle.pgp_auth.specs.ScramServer.{Expects, Accepts, Signs};
ghost use Rattle.pgp_auth.specs.ScramServing.{Server, Serving, Challenge, AwaitsFirst, Challenges, Admits, RefusesProof, ShowsKey, answer_of};
ghost use Rattle.pgp_auth.specs.ScramMock.{as_known, ShowsNoProof};
ghost use Rattle.pgp_auth.specs.declared.scram.server_error.ServerError.{ServerError};
ghost use Rattle.pgp_auth.specs.ScramRefusal.{Refusal, OutOfMemory, InvalidBase64, Admitted, Meets, RefusesFirst, RefusesFinal, Verifies, ShowsOther};
ghost use Rattle.pgp_auth.specs.ScramClient.{Client, Answers, first_text, signature_of, NotVerified, Serves, Completes, Over};
ghost use Rattle.pgp_auth.specs.ScramErrorView.{refusal, number_of, plain};
ghost use Rattle.pgp_auth.specs.ScramMeeting.{Meeting, Met, OnlyMemory};

use crate::authentication::sasl::{
    ExchangeError, ScramError, ScramServer, ScramSha256, ServerError,
};
use pgp_base::Memory;

/// What follows a string constant, unless it begins with a quote, changes neither where the constant
/// ends nor what it is read as. (A quote right after it would be read as a part of it.)
pub fn literal_ends_once()
    ensures { (on : Bool) (t u r s y x : List ℕ) → Literal on t y → Literal on u x →
        slice_get r 0 ≢ Some single_quote → slice_get s 0 ≢ Some single_quote → t ++ r ≡ u ++ s → (t ≡ u) × (y ≡ x) }
{}

/// The same of a quoted identifier.
pub fn identifier_ends_once()
    ensures { (t u r s y x : List ℕ) → Identifier t y → Identifier u x →
        slice_get r 0 ≢ Some double_quote → slice_get s 0 ≢ Some double_quote → t ++ r ≡ u ++ s → (t ≡ u) × (y ≡ x) }
{}

/// A text has one string constant of each form: what `escape_literal` returns is determined.
pub fn one_literal_of_each_form()
    ensures { (on : Bool) (t u z : List ℕ) → Literal on t z → Literal on u z → (IsPlain t ↔ IsPlain u) → t ≡ u }
{}

/// A text has one quoted identifier.
pub fn one_identifier()
    ensures { (t u z : List ℕ) → Identifier t z → Identifier u z → t ≡ u }
{}

/// Base64 of bytes shows them, and no other text does.
pub fn base64_shows()
    ensures shows { (bytes : List ℕ) → IsBytes bytes → Shows (base64 bytes) bytes }
    ensures alone { (text bytes : List ℕ) → IsBytes text → Shows text bytes → text ≡ base64 bytes }
{}

/// A password that is longer than a block makes the key that its digest makes.
pub fn long_password_is_hashed()
    ensures { (password salt : List ℕ) (count : ℕ) → 64 < length password →
        salted password salt count ≡ salted (sha256 password) salt count }
{}

/// No rounds are read as one.
pub fn no_rounds_are_one()
    ensures { (password salt : List ℕ) → salted password salt 0 ≡ salted password salt 1 }
{}

/// A text of bytes that need no escape is read as itself between two quotes.
pub fn plain_text_is_its_own_literal()
    ensures { (on : Bool) (text : List ℕ) → All NeedsNoEscape text →
        Literal on (single_quote ∷ (text ++ single_quote ∷ [])) text }
{}

/// Verifiers and the answers of MD5 authentication have no quote and no backslash.
pub fn verifiers_need_no_escape()
    ensures scram { (v : Verifier) → All NeedsNoEscape (verifier_text v) }
    ensures md5 { (message : List ℕ) → All NeedsNoEscape (md5_text message) }
{}

/// An answer to an MD5 request is right for what is stored of a password exactly where this password makes it.
pub fn md5_answers_are_told()
    ensures { (password user salt answer : List ℕ) →
        (AnswersStored (md5_verifier password user) salt answer ↔ (answer ≡ md5_answer user password salt)) }
{}

/// The numbers tell the variants of `ScramError` apart.
pub fn numbers_differ()
    ensures { (d e : Refusal) → number_of d ≡ number_of e → plain d ≡ plain e }
{}

/// A server's first text either meets the client's conditions, with one nonce, one salt and one count,
/// or has one cause of error.
pub fn first_text_is_answered_in_one_way()
    ensures some { (client_nonce text : List ℕ) →
        ((nonce salt : List ℕ) × (count : ℕ) × Meets client_nonce text nonce salt count) ⊎ ((e : Refusal) × RefusesFirst client_nonce text e) }
    ensures meets { (c text n s m t : List ℕ) (i j : ℕ) → Meets c text n s i → Meets c text m t j → (n ≡ m) × (s ≡ t) × (i ≡ j) }
    ensures refused { (c text : List ℕ) (d e : Refusal) → RefusesFirst c text d → RefusesFirst c text e → d ≡ e }
    ensures one { (c text n s : List ℕ) (i : ℕ) (e : Refusal) → Meets c text n s i → ¬ RefusesFirst c text e }
    ensures admitted { (c text : List ℕ) (e : Refusal) → Admitted c text → RefusesFirst c text e → e ≡ InvalidBase64 }
{}

/// A server's final text shows the signature, shows other bytes, or has one cause of error.
pub fn final_text_is_answered_in_one_way()
    ensures some { (text signature : List ℕ) → Verifies signature text ⊎ (ShowsOther signature text ⊎ ((e : Refusal) × RefusesFinal text e)) }
    ensures refused { (text : List ℕ) (d e : Refusal) → RefusesFinal text d → RefusesFinal text e → d ≡ e }
    ensures verifies { (text signature : List ℕ) (e : Refusal) → Verifies signature text → ¬ RefusesFinal text e }
    ensures differs { (text signature : List ℕ) (e : Refusal) → ShowsOther signature text → ¬ RefusesFinal text e }
    ensures one { (text signature : List ℕ) → Verifies signature text → ¬ ShowsOther signature text }
{}

/// A text that shows the signature is rejected for lack of memory alone, and only where its base64 has
/// more than 64 characters.
pub fn signature_is_refused_for_memory_alone<A: Memory>()
    ensures { (text signature : List ℕ) (e : Refusal) (before after : ℕ) (v : Verifies signature text) →
        NotVerified A.Lacks signature text e before after → (e ≡ OutOfMemory) × A.Lacks × (64 < length v.shown) }
{}

/// A server makes one signature of the texts of an exchange.
pub fn one_signature()
    ensures { (v : Verifier) (binding : Binding) (first server_first x y : List ℕ) →
        Signs v binding first server_first x → Signs v binding first server_first y → x ≡ y }
{}

/// Where a client's first text has the empty user name, as PostgreSQL's clients send it, what both sides sign begins with
/// `n=,r=` and the client's nonce.
pub fn empty_name_is_signed()
    ensures { (binding : Binding) (nonce server_first final auth : List ℕ) (x : Expects binding (client_first binding nonce) server_first final auth) →
        (x.user ≡ []) × (x.client_nonce ≡ nonce) × (x.bare ≡ first_bare x.client_nonce) }
{}

/// Where `ScramServer::finish` is Ok, the client has shown a key whose digest is the stored key.
pub fn accepted_text_shows_a_key()
    ensures { (old new : Server) (text answer : List ℕ) (a : Admits old text new answer) → ShowsKey a.challenge text }
{}

/// Where a server has a made-up verifier, and `first` was Ok, `finish` isn't, whatever the client sends.
pub fn mock_is_never_accepted()
    ensures { (serving : Serving) (between new : Server) (first answer last signature : List ℕ) → serving.is_mock ≡ true →
        Challenges (AwaitsFirst serving) first between answer → ¬ Admits between last new signature }
{}

/// A client can't tell by the server's texts and errors that a verifier is made up: the answer to its first text is that of a
/// server which has a verifier of the same salt and count, and a final text that shows no proof of its key is rejected by the
/// same causes.
pub fn mock_is_told_alike()
    ensures answer { (c : Challenge) (stored_key server_key : List ℕ) → answer_of c ≡ answer_of (as_known c stored_key server_key) }
    ensures refusal { (c : Challenge) (text stored_key server_key : List ℕ) (e : ServerError) → c.is_mock ≡ true → ShowsNoProof c text stored_key →
        (RefusesProof c text e ↔ RefusesProof (as_known c stored_key server_key) text e) }
{}

/// Both ways: the server that holds the verifier of the client's password accepts the text that `update`
/// makes, and `finish` accepts the text that this server answers, and can't reject it.
pub fn both_ways<A: Memory>()
    ensures { (old new : Client) (text signature : List ℕ) (a : Answers old text new) →
        Signs (verifier a.begun.password a.salt a.count) a.begun.binding (first_text a.begun) text signature →
        Accepts (verifier a.begun.password a.salt a.count) a.begun.binding (first_text a.begun) text a.answered.final
        × Verifies (signature_of a.answered) (codes "v=" ++ base64 signature)
        × ((e : Refusal) (before after : ℕ) → ¬ NotVerified A.Lacks (signature_of a.answered) (codes "v=" ++ base64 signature) e before after) }
{}

/// Both ways, as calls: with the texts of a server that holds the verifier of the client's password the
/// exchange comes to its end, unless `update` lacks memory.
///
/// # Errors
///
/// Returns `OutOfMemory` if `update` can't allocate.
pub fn exchange<A: Memory>(
    client: &mut ScramSha256<A>,
    server_first: &[u8],
    server_final: &[u8],
) -> Result<(), ScramError<A>>
    requires { Serves client.old.state server_first.now server_final.now }
    ensures ok { OnOk result (Completes client.old server_first.now server_final.now client.new) }
    ensures over { client.new.state ≡ Over }
    ensures memory { IfErr result (λ e. (refusal e ≡ OutOfMemory) × A.Lacks) }
{
    client.update(server_first)?;
    client.finish(server_final)
}

/// Our client against our server: where the server holds the verifier of the client's password, and takes its channel
/// binding, both are through, unless one of them lacks memory.
///
/// # Errors
///
/// Returns `OutOfMemory` from either side.
pub fn ends_meet<A: Memory>(
    client: &mut ScramSha256<A>,
    server: &mut ScramServer<A>,
) -> Result<(), ExchangeError<A>>
    requires { Meeting client.old server.old }
    ensures ok { OnOk result (Met client.new server.new) }
    ensures memory { IfErr result (OnlyMemory A.Lacks) }
{
    let Some(first) = client.message() else {
        return Err(ExchangeError::Server(ServerError::WrongState));
    };
    let answer = server.first(first)?;
    client.update(&answer)?;
    let Some(last) = client.message() else {
        return Err(ExchangeError::Server(ServerError::WrongState));
    };
    let signature = server.finish(last)?;
    client.finish(&signature)?;
    Ok(())
}
