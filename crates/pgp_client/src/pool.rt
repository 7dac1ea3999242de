//! What holds of a connection that a pool lends where its dialogue is idle.

ghost use Rattle.std.specs.Prelude.{◌≡◌, ◌≢◌, ◌⊎◌, ◌++◌, ◌∷◌, [], ℕ, List, Ok, false, true};
ghost use Rattle.pgp_client.specs.InTurns.{BelongInTurns};
ghost use Rattle.pgp_client.specs.Taking.{is_between, is_copying, is_idle, starts_with_sync, taken};
ghost use Rattle.pgp_client.specs.Talk.{Talk};
ghost use Rattle.pgp_client.specs.Telling.{Follows, FollowsTo, Hears, Turn, reported_in, start};
ghost use Rattle.pgp_client.specs.declared.event.Event.{Event as Reported};
ghost use Rattle.pgp_client.specs.declared.event.Event.TheVariants.{Aside, Ended, Last};
ghost use Rattle.pgp_client.specs.declared.kind.Kind.{Kind as Received};
ghost use Rattle.pgp_client.specs.declared.stage.Stage.TheVariants.{Over, Skipping};
ghost use Rattle.pgp_client.specs.PoolExample.{lendings};
ghost use Rattle.pgp_client.specs.Pool.{EachHearsOwn, EachStandsAlone, IsAnswer, Lending as Lent, Lends, lent_at_ready, run_by_client, run_of, two_syncs};

use crate::laws;

/// No client of a pool hears another's answer: where a connection is lent only while its dialogue is idle, each message that is heard in a lending belongs, by every reading
/// of the connection's whole run, to a request of the client to whom it is lent, or to no request at all. Each request is called by its client here, whatever the caller of the
/// dialogue called it. In the last lending the dialogue may refuse what comes, and the session may end.
pub fn no_client_hears_anothers_answer()
    ensures own { (lendings : List Lent) (now : Talk) (last : Lent) (truth : List Reported) → Lends start lendings now → is_idle now ≡ true
        → BelongInTurns (run_by_client (lendings ++ last ∷ [])) truth → EachHearsOwn (lendings ++ last ∷ []) truth }
    ensures read { (lendings : List Lent) (now : Talk) → Lends start lendings now → (truth : List Reported) × BelongInTurns (run_by_client lendings) truth }
{
    laws::messages_belong_in_turns();
}

/// What is heard in a lending doesn't depend on the lendings before it: each is a whole dialogue of a connection on which nothing was asked, and all of them are one dialogue,
/// of which the laws of `pgp_client` speak.
pub fn lendings_stand_alone()
    ensures alone { (lendings : List Lent) (now : Talk) → Lends start lendings now → EachStandsAlone lendings }
    ensures one_run { (lendings : List Lent) (now : Talk) → Lends start lendings now → FollowsTo start (run_of lendings) now }
{
    laws::messages_belong_in_turns();
    laws::answers_follow_their_requests();
}

/// What comes behind an idle dialogue, as at a lending's end, is a run of its own: whatever is asked and heard from there on, each reading of the whole run is what was reported so
/// far, and a reading of the rest by itself, to whose requests alone its messages belong. Here it doesn't matter whether the dialogue takes them.
pub fn what_comes_behind_stands_alone()
    ensures { (turns more : List Turn) (now : Talk) (truth : List Reported) → FollowsTo start turns now → is_idle now ≡ true → BelongInTurns (turns ++ more) truth
        → (rest : List Reported) × (truth ≡ reported_in turns ++ rest) × BelongInTurns more rest }
{}

/// So nothing that was asked is still to be answered there: by every reading of the run and of one message more, this belongs to no request.
pub fn nothing_is_owed()
    ensures { (turns : List Turn) (now : Talk) (kind : Received) (told : Reported) (truth : List Reported) → FollowsTo start turns now → is_idle now ≡ true
        → BelongInTurns (turns ++ Hears kind told ∷ []) truth → (event : Reported) × (truth ≡ reported_in turns ++ event ∷ []) × ((event ≡ Aside) ⊎ (event ≡ Ended)) }
{}

/// A connection whose session ended is never lent again, nor one of which a message was refused, after which the stage is `Over` too.
pub fn closed_connections_are_not_lent()
    ensures ended { (old new : Talk) (kind : Received) → taken old kind ≡ Ok (Ended, new) → new.stage ≡ Over }
    ensures never { (closed now : Talk) (turns : List Turn) → closed.stage ≡ Over → FollowsTo closed turns now → is_idle now ≡ true → ⊥ }
{}

/// Nothing less than being idle will do: where a dialogue isn't idle, a server may send a message that belongs to a request that was asked. Left out is a copy to the server whose
/// first pending request is a Sync: its error is `Uncertain`. Behind an error, before a Sync is asked, a server may send no answer, and passes over what is asked next.
pub fn busy_dialogues_owe()
    ensures { (turns : List Turn) (now : Talk) → FollowsTo start turns now → is_idle now ≡ false
        → (is_copying now ≡ true → starts_with_sync now.pending ≡ false) → now.stage ≢ Skipping → now.stage ≢ Over
        → (kind : Received) × (event : Reported) × IsAnswer event × BelongInTurns (turns ++ Hears kind event ∷ []) (reported_in turns ++ event ∷ []) }
{
    laws::messages_belong_in_turns();
}

/// There are such lendings: for a log-in, to a pipeline whose first part fails, for a function call, to a copy that fails before the client ended its data, and to a copy.
pub fn connections_are_lent()
    ensures { (now : Talk) × Lends start lendings now × (is_idle now ≡ true) }
{}

/// That the server is ready, and no answer under way, isn't enough: where a client asked two Syncs, and the connection is lent to another at the first ReadyForQuery, the
/// dialogue takes what is heard, and by no reading does each client hear its own. So the law above is false with `is_between` in the place of `is_idle` (`premise`).
pub fn ready_connections_are_not_idle()
    ensures between { (one : ℕ) → (now : Talk) × FollowsTo start (two_syncs one) now × (is_between now ≡ true) × (is_idle now ≡ false) }
    ensures taken { (one other : ℕ) → Follows start (run_of (lent_at_ready one other)) }
    ensures read { (one other : ℕ) → BelongInTurns (run_by_client (lent_at_ready one other)) (Last one ∷ Last one ∷ []) }
    ensures astray { (one other : ℕ) (truth : List Reported) → one ≢ other → BelongInTurns (run_by_client (lent_at_ready one other)) truth
        → EachHearsOwn (lent_at_ready one other) truth → ⊥ }
    ensures premise { ((lendings : List Lent) (now : Talk) (last : Lent) (truth : List Reported) → Lends start lendings now → is_between now ≡ true
        → BelongInTurns (run_by_client (lendings ++ last ∷ [])) truth → EachHearsOwn (lendings ++ last ∷ []) truth) → ⊥ }
{
    laws::messages_belong_in_turns();
}
