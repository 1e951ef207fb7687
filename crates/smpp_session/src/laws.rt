//! Laws of sessions, over their definitions alone.
ghost use Rattle.std.specs.Prelude.{◌≡◌, ◌++◌, ◌∷◌, List, [], ℕ, bytes_eq, map, slice_get, true, false, None, Some};
ghost use Rattle.std.specs.List.{AllByRecursion};
ghost use Rattle.smpp_pdu.specs.declared.bind.Bind.{Bind as BindOf};
ghost use Rattle.smpp_session.specs.declared.account.Account.{Account as AccountOf};
ghost use Rattle.smpp_session.specs.declared.account.Login.TheVariants.{Known, UnknownName, WrongPassword};
ghost use Rattle.smpp_session.specs.declared.action.BindKind.{BindKind as KindOf};
ghost use Rattle.smpp_session.specs.Logins.{is_full, is_own, login};
ghost use Rattle.smpp_session.specs.declared.action.Action.{Action as ActionOf};
ghost use Rattle.smpp_session.specs.declared.calling.Call.{Call as CallOf};
ghost use Rattle.smpp_session.specs.declared.conversation.SessionState.TheVariants.{Closed, Finishing};
ghost use Rattle.smpp_session.specs.declared.patience.EndpointState.{EndpointState as EndpointOf};
ghost use Rattle.smpp_session.specs.declared.patience.Patience.{Patience as PatienceOf};
ghost use Rattle.smpp_session.specs.declared.patience.WaitOutcome.TheVariants.{AsksLink, Inactive, Ordered, Silent, Stalled, Unanswered, Waits};
ghost use Rattle.smpp_session.specs.declared.turn.SessionStep.{SessionStep as TurnOf};
ghost use Rattle.smpp_session.specs.Stream.{IsStream, header_at};
ghost use Rattle.smpp_session.specs.SessionRun.{stream, by_pieces};
ghost use Rattle.smpp_session.specs.Sessions.{SessionView, opened, number_to_send, fed};
ghost use Rattle.smpp_session.specs.Bindings.{is_bound};
ghost use Rattle.smpp_session.specs.Calls.{and_then, ran};
ghost use Rattle.smpp_session.specs.Owing.{IsConnected, IsRequest, IsUnbinding, Reply, call_of, left_unanswered, number_in, octets_sent, replies_written};
ghost use Rattle.smpp_session.specs.SessionTable.{bind_refused, bind_taken, refusal, sent, treated, unbind_resp, without_bind_resp};
ghost use Rattle.smpp_pdu.specs.Commands.{command_of};
ghost use Rattle.smpp_pdu.specs.declared.command.CommandId.{CommandId as CommandOf};
ghost use Rattle.smpp_pdu.specs.declared.status.CommandStatus.TheVariants.{ESME_RBINDFAIL, ESME_RINVBNDSTS, ESME_RINVPASWD, ESME_RINVSYSID};
ghost use Rattle.smpp_session.specs.Patience.{HasRunOut, verdict_of};
ghost use Rattle.smpp_session.specs.Promises.{HasRoom, ReadsAsItsCommand, bound_as_reported};
ghost use Rattle.smpp_session.specs.Windows.{IsSequenceNumber, IsWindow};

/// A stream has one cut into pieces and a rest.
pub fn stream_has_one_cut()
    ensures { (octets : List ℕ) (one other : List (List ℕ)) (rest left : List ℕ) → IsStream octets one rest → IsStream octets other left → (one ≡ other)
        × (rest ≡ left) }
{}

/// Octets one after the other give what the pieces of their stream give by the table, and then its rest.
pub fn octets_give_what_pieces_give()
    ensures { (accounts : List AccountOf) (turn : TurnOf) (octets : List ℕ) (pieces : List (List ℕ)) (rest : List ℕ) → IsStream octets pieces rest
        → stream accounts (turn, []) octets ≡ by_pieces accounts turn pieces rest }
{}

/// Two lists of octets fed one after the other give what both give together.
pub fn feeds_join()
    ensures { (session : SessionView) (one other : List ℕ) → fed session (one ++ other) ≡ and_then (fed session one) (fed (fed session one).0 other) }
{}

/// Over any calls, the octets of each request that is passed up read as that request.
pub fn passed_up_reads_as_its_command()
    ensures { (accounts : List AccountOf) (calls : List CallOf) → AllByRecursion ReadsAsItsCommand (ran (opened accounts, []) calls).1 }
{}

/// Over any calls, at most ten deliver_sm wait for their answers, under different numbers of 1 to 7FFFFFFF.
pub fn few_wait_under_different_numbers()
    ensures { (accounts : List AccountOf) (calls : List CallOf) → IsWindow (ran (opened accounts, []) calls).0.conversation.unanswered }
{}

/// Over any calls, the next deliver_sm has a number of 1 to 7FFFFFFF.
pub fn numbers_stay_in_range()
    ensures { (accounts : List AccountOf) (calls : List CallOf) → IsSequenceNumber (number_to_send (ran (opened accounts, []) calls).0.conversation) }
{}

/// While the connection lasts, a session owes the answers to all requests that it passed up, less those that were answered. It closes
/// by itself only where it owes none.
pub fn each_request_is_owed_its_answer()
    ensures owed { (accounts : List AccountOf) (calls : List CallOf) → IsConnected calls
        → (ran (opened accounts, []) calls).0.conversation.owed ≡ left_unanswered [] (opened accounts) calls }
    ensures closed { (accounts : List AccountOf) (calls : List CallOf) → IsConnected calls → (ran (opened accounts, []) calls).0.conversation.state ≡ Closed
        → left_unanswered [] (opened accounts) calls ≡ [] }
{}

/// Where the other side has sent unbind while answers were owed, these are sent as they come. The unbind_resp follows the last of them, and
/// the session is closed.
pub fn the_unbind_resp_follows_the_last_answer()
    ensures { (session : SessionView) (reply : Reply) (replies : List Reply) (number : ℕ) → session.conversation.state ≡ Finishing
        → session.conversation.unbind ≡ Some number → session.conversation.owed ≡ map number_in (reply ∷ replies)
        → ((ran (session, []) (map call_of (reply ∷ replies))).0.conversation.state ≡ Closed)
        × (octets_sent (ran (session, []) (map call_of (reply ∷ replies))).1 ≡ replies_written (reply ∷ replies) ++ unbind_resp number) }
{}

/// Behind an unbind of either side each submit_sm, query_sm and cancel_sm is refused with ESME_RINVBNDSTS, and nothing else becomes of it.
pub fn no_request_is_taken_behind_an_unbind()
    ensures { (accounts : List AccountOf) (octets : List ℕ) (turn : TurnOf) (command : CommandOf) → command_of (header_at octets).command_id ≡ Some command
        → IsRequest command → IsUnbinding turn.conversation.state
        → treated accounts octets turn ≡ sent (refusal command) ESME_RINVBNDSTS (header_at octets).sequence_number turn }
{}

/// A session that is bound is of an account that is not full.
pub fn none_is_bound_beyond_its_limit()
    ensures { (session : SessionView) (octets : List ℕ) → AllByRecursion (HasRoom session.conversation.full) (fed session octets).1 }
{}

/// A bind of a full account is refused with ESME_RBINDFAIL, and nothing else becomes of it. Only who gives the account's name and
/// password learns so.
pub fn a_full_account_takes_no_bind()
    ensures refused { (accounts : List AccountOf) (kind : KindOf) (number place : ℕ) (bind : BindOf) (turn : TurnOf)
        → login 0 bind.system_id bind.password accounts ≡ Known place → is_full place turn.conversation.full ≡ true
        → bind_taken accounts kind number bind turn ≡ bind_refused (without_bind_resp kind) ESME_RBINDFAIL number bind.system_id turn }
    ensures unknown { (accounts : List AccountOf) (kind : KindOf) (number : ℕ) (bind : BindOf) (turn : TurnOf)
        → login 0 bind.system_id bind.password accounts ≡ UnknownName
        → bind_taken accounts kind number bind turn ≡ bind_refused (without_bind_resp kind) ESME_RINVSYSID number bind.system_id turn }
    ensures wrong { (accounts : List AccountOf) (kind : KindOf) (number : ℕ) (bind : BindOf) (turn : TurnOf)
        → login 0 bind.system_id bind.password accounts ≡ WrongPassword
        → bind_taken accounts kind number bind turn ≡ bind_refused (without_bind_resp kind) ESME_RINVPASWD number bind.system_id turn }
{}

/// A name and a password are those of an account only where it has that name and the password is its own.
pub fn only_its_own_password_is_an_accounts()
    ensures { (accounts : List AccountOf) (name password : List ℕ) (place : ℕ) → login 0 name password accounts ≡ Known place
        → (account : AccountOf) × (slice_get accounts place ≡ Some account) × (bytes_eq account.name name ≡ true) × (is_own account.password password ≡ true) }
{}

/// A closed session stays closed and gives nothing, whatever is called.
pub fn nothing_after_closed()
    ensures { (session : SessionView) (before : List ActionOf) (calls : List CallOf) → session.conversation.state ≡ Closed
        → ((ran (session, before) calls).0.conversation.state ≡ Closed) × ((ran (session, before) calls).1 ≡ before) }
{}

/// Over any calls the owner knows whether an account is bound after the octets that were fed. The actions and the mark
/// of a lost bind say so exactly.
pub fn owner_knows_whether_an_account_is_bound()
    ensures { (accounts : List AccountOf) (calls : List CallOf) (octets : List ℕ)
        → is_bound (fed (ran (opened accounts, []) calls).0 octets).0.conversation.state ≡ bound_as_reported (ran (opened accounts, []) calls).0 octets }
{}

/// An endpoint is given up only once a time of it has run out: ten seconds in which it takes no octet, five seconds to leave,
/// half a minute to say who it is (five seconds while others wait for its seat), a minute to answer a deliver_sm or an
/// enquire_link. A bound session is sent enquire_link only once it was silent for five minutes.
pub fn none_is_given_up_early()
    ensures stalled { (p : PatienceOf) (s : EndpointOf) (now : ℕ) → verdict_of p s now ≡ Stalled → HasRunOut 10000 p.stalled now }
    ensures leaving { (p : PatienceOf) (s : EndpointOf) (now : ℕ) → verdict_of p s now ≡ Ordered → HasRunOut 5000 p.leaving now }
    ensures unknown { (p : PatienceOf) (s : EndpointOf) (now : ℕ) → s.others_wait ≡ false → verdict_of p s now ≡ Silent
        → (s.is_known ≡ false) × HasRunOut 30000 (Some p.unknown) now }
    ensures awaited { (p : PatienceOf) (s : EndpointOf) (now : ℕ) → s.others_wait ≡ true → verdict_of p s now ≡ Silent
        → (s.is_known ≡ false) × HasRunOut 5000 (Some p.unknown) now }
    ensures owed { (p : PatienceOf) (s : EndpointOf) (now : ℕ) → verdict_of p s now ≡ Unanswered → HasRunOut 60000 s.owed now }
    ensures asked { (p : PatienceOf) (s : EndpointOf) (now : ℕ) → verdict_of p s now ≡ Inactive → HasRunOut 60000 p.asked now }
    ensures heard { (p : PatienceOf) (s : EndpointOf) (now : ℕ) → verdict_of p s now ≡ AsksLink
        → (s.is_bound ≡ true) × (p.asked ≡ None) × HasRunOut 300000 (Some p.heard) now }
{}

/// An endpoint is waited for only while no time of it has run out.
pub fn none_is_waited_for_without_end()
    ensures stalled { (p : PatienceOf) (s : EndpointOf) (now : ℕ) → verdict_of p s now ≡ Waits → ¬ HasRunOut 10000 p.stalled now }
    ensures leaving { (p : PatienceOf) (s : EndpointOf) (now : ℕ) → verdict_of p s now ≡ Waits → ¬ HasRunOut 5000 p.leaving now }
    ensures unknown { (p : PatienceOf) (s : EndpointOf) (now : ℕ) → s.is_known ≡ false → verdict_of p s now ≡ Waits
        → ¬ HasRunOut 30000 (Some p.unknown) now × (s.others_wait ≡ true → ¬ HasRunOut 5000 (Some p.unknown) now) }
    ensures owed { (p : PatienceOf) (s : EndpointOf) (now : ℕ) → s.is_known ≡ true → verdict_of p s now ≡ Waits → ¬ HasRunOut 60000 s.owed now }
    ensures asked { (p : PatienceOf) (s : EndpointOf) (now : ℕ) → s.is_known ≡ true → s.is_bound ≡ true → verdict_of p s now ≡ Waits
        → ¬ HasRunOut 60000 p.asked now }
    ensures heard { (p : PatienceOf) (s : EndpointOf) (now : ℕ) → s.is_known ≡ true → s.is_bound ≡ true → p.asked ≡ None
        → verdict_of p s now ≡ Waits → ¬ HasRunOut 300000 (Some p.heard) now }
{}
