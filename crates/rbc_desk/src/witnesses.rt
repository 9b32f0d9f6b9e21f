//! A worked case of the law on mails: correct mails, which satisfy it, and wrong ones, which violate it.

ghost use Rattle.std.specs.Prelude.{false, [], ◌∷◌};
ghost use Rattle.rbc_rule_laws.specs.Witnesses.{stop_before, stop_now, revoke, naming, stamped, asking};
ghost use Rattle.rbc_desk.specs.Serial.{mail};
ghost use Rattle.rbc_desk.specs.Witnesses.{stop_told, stop_revoked, IsSaidThere, AreSaidThere};

/// Train 7 stands 200 m beyond balise group 5, facing up. Stop 1 of 20000 to 21000 becomes active, and is released.
///
/// Right: mail 1 tells the train to stop before 20000, mail 2 revokes that, and the train's outbox has these two more.
///
/// Wrong: the stop is told by mail 2, or by mail 3; it is told to engine 8; the train is told to stop at once; the
/// message names balise group 6; another identifier is revoked, among them 16, which the four bits of its variable
/// would cut to 0; the stop is told with the stamp for an unknown time; its revocation asks for no answer; after the
/// two correct mails comes one that revokes another identifier; engine 8 has a mail; a mail of before is gone; the
/// revocation is lost; the stop is told twice; and the revocation stands before what it revokes.
pub fn mails_law_witnesses()
    ensures told { IsSaidThere 7 stop_told }
    ensures revoked { IsSaidThere 7 stop_revoked }
    ensures both { AreSaidThere [] ((7, stop_told ∷ stop_revoked ∷ []) ∷ []) }
    ensures other_number { IsSaidThere 7 (mail 2 (stop_before 1 0 10000)) → ⊥ }
    ensures past_the_inputs { IsSaidThere 7 (mail 3 (stop_before 1 0 10000)) → ⊥ }
    ensures other_train { IsSaidThere 8 stop_told → ⊥ }
    ensures other_kind { IsSaidThere 7 (mail 1 (stop_now 1 0)) → ⊥ }
    ensures other_group { IsSaidThere 7 (mail 1 (naming 6 (stop_before 1 0 10000))) → ⊥ }
    ensures other_identifier { IsSaidThere 7 (mail 2 (revoke 1)) → ⊥ }
    ensures cut_identifier { IsSaidThere 7 (mail 2 (revoke 16)) → ⊥ }
    ensures other_stamp { IsSaidThere 7 (mail 1 (stamped 4294967295 (stop_before 1 0 10000))) → ⊥ }
    ensures asks_not { IsSaidThere 7 (mail 2 (asking false (revoke 0))) → ⊥ }
    ensures one_too_many { AreSaidThere [] ((7, stop_told ∷ stop_revoked ∷ mail 2 (revoke 1) ∷ []) ∷ []) → ⊥ }
    ensures engine_8_told { AreSaidThere [] ((7, stop_told ∷ stop_revoked ∷ []) ∷ (8, stop_told ∷ []) ∷ []) → ⊥ }
    ensures one_before_gone { AreSaidThere ((8, stop_told ∷ []) ∷ []) ((7, stop_told ∷ stop_revoked ∷ []) ∷ []) → ⊥ }
    ensures lost { AreSaidThere [] ((7, stop_told ∷ []) ∷ []) → ⊥ }
    ensures doubled { AreSaidThere [] ((7, stop_told ∷ stop_told ∷ stop_revoked ∷ []) ∷ []) → ⊥ }
    ensures other_order { AreSaidThere [] ((7, stop_revoked ∷ stop_told ∷ []) ∷ []) → ⊥ }
{}
