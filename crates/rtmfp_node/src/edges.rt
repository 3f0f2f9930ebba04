//! The numbers and texts of a node, at their edges and one beside. The functions do nothing: the
//! contract of each states what the definitions that the contract of `serve` cites are there. All
//! of it is own.

ghost use Rattle.std.specs.Prelude.{◌≡◌, ◌∷◌, ◌++◌, ◌+◌, ◌-◌, ◌^◌, ◌<◌, ℕ, List, [], true, false, Option, None, Some, codes, decimal, drop, length, take};
ghost use Rattle.glare_core.specs.declared.facts.Joined.{Joined};
ghost use Rattle.glare_core.specs.declared.facts.Fact.TheVariants.{Born, Opened};
ghost use Rattle.rtmfp_forms.specs.Address.{AddressParts};
ghost use Rattle.rtmfp_host.specs.declared.link.Given.{Given};
ghost use Rattle.rtmfp_host.specs.declared.link.Given.TheVariants.{Datagram, Quiet};
ghost use Rattle.rtmfp_host.specs.declared.link.LinkCall.{LinkCall};
ghost use Rattle.rtmfp_host.specs.declared.link.LinkCall.TheVariants.{Bind, Send};
ghost use Rattle.endpoint_model.specs.declared.answers.OpenRefusal.TheVariants.{Start};
ghost use Rattle.glare_core.specs.declared.answers.StartRefusal.TheVariants.{AttemptsSpent};
ghost use Rattle.endpoint_model.specs.declared.entry.Entry.TheVariants.{Closed, Fact as FactEntry};
ghost use Rattle.endpoint_model.specs.declared.config.Draws.{Draws};
ghost use Rattle.endpoint_model.specs.Event.{Advance, Event, Learn, NotOpened, Open, Receive, Seek, Setup, Tick};
ghost use Rattle.endpoint_model.specs.FlowCall.{OpenFlow, Queue};
ghost use Rattle.rtmfp_words.specs.Node.{Serving};
ghost use Rattle.rtmfp_words.specs.declared.opening_words.OpeningWords.{OpeningWords};
ghost use Rattle.rtmfp_words.specs.declared.opening_words.Whom.TheVariants.{Print, Name};
ghost use Rattle.rtmfp_node.specs.declared.served.Served.TheVariants.{EntropyFault, LinkFault};
ghost use Rattle.rtmfp_node.specs.Calls.{asked, calls_in, first_added, message_calls, opening_calls};
ghost use Rattle.rtmfp_node.specs.Cut.{IsPart, LinesSoFar};
ghost use Rattle.rtmfp_node.specs.Events.{AreOpened, AreTurnEvents, AreWholeEvents, AreZeroEvents, advance_call, draws_of, learn_call, opened_in, opening_call, opens_flow, queues};
ghost use Rattle.rtmfp_node.specs.declared.sending.Front.{Front};
ghost use Rattle.rtmfp_node.specs.declared.sending.Front.TheVariants.{InJournal, InReport};
ghost use Rattle.rtmfp_node.specs.Outside.{Told};
ghost use Rattle.rtmfp_node.specs.Report.{head_text, refused_text, unsent_line, unsent_text};
ghost use Rattle.rtmfp_node.specs.Turn.{setup_of, until_of};
ghost use Rattle.rtmfp_node.specs.Whole.{CutAtStart};

/// A receive waits 50 ms, and not beyond the last moment.
pub fn a_receive_waits_50_ms()
    ensures first { until_of 0 ≡ 50 }
    ensures whole { until_of (2 ^ 64 - 52) ≡ 2 ^ 64 - 2 }
    ensures last { until_of (2 ^ 64 - 51) ≡ 2 ^ 64 - 1 }
    ensures beyond { until_of (2 ^ 64 - 50) ≡ 2 ^ 64 - 1 }
    ensures end { until_of (2 ^ 64 - 1) ≡ 2 ^ 64 - 1 }
{}

/// Of a drawn block the nonce is 16 bytes, then come a tag of 16 and a token of 16, and a word of 4
/// that is read with its most significant byte first. The other 12 are nothing.
pub fn a_block_has_its_parts()
    ensures { draws_of (codes "ABCDEFGHIJKLMNOPQRSTUVWXYZabcdefghijklmnopqrstuvwxyz0123456789+/")
        ≡ record {
          nonce = codes "ABCDEFGHIJKLMNOP";
          tag = codes "QRSTUVWXYZabcdef";
          token = codes "ghijklmnopqrstuv";
          word = 2004384122;
        } }
{}

/// The first block begins the certificate, unless the words do, and the name stands behind it; its
/// bytes 16 to 47 are the cookie secret. The group's secret is that of the words, in generation 0. A
/// node knows 65,536 peers and has 4,096 attempts and sessions at most.
pub fn an_end_is_made_of_the_first_block()
    ensures drawn { (v : Serving) → setup_of (record v {
      group = codes "0123456789+/abcdefghijklmnopqrst";
      name = codes "node";
      instance = None;
      introduce = true;
    }) (codes "ABCDEFGHIJKLMNOPQRSTUVWXYZabcdefghijklmnopqrstuvwxyz0123456789+/")
        ≡ record {
          config = record { max_peers = 65536; max_sessions = 4096; introduces = true };
          cert = codes "ABCDEFGHIJKLMNOPnode";
          generation = 0;
          secret = codes "0123456789+/abcdefghijklmnopqrst";
          cookie_secret = codes "QRSTUVWXYZabcdefghijklmnopqrstuv";
        } }
    ensures told { (v : Serving) → setup_of (record v {
      group = codes "0123456789+/abcdefghijklmnopqrst";
      name = codes "node";
      instance = Some (codes "fedcba9876543210");
      introduce = false;
    }) (codes "ABCDEFGHIJKLMNOPQRSTUVWXYZabcdefghijklmnopqrstuvwxyz0123456789+/")
        ≡ record {
          config = record { max_peers = 65536; max_sessions = 4096; introduces = false };
          cert = codes "fedcba9876543210node";
          generation = 0;
          secret = codes "0123456789+/abcdefghijklmnopqrst";
          cookie_secret = codes "QRSTUVWXYZabcdefghijklmnopqrstuv";
        } }
{}

/// In turn 0 each opening is a call with the draws of a block of its own, in their order.
pub fn turn_zero_makes_its_openings()
    ensures { (openings : List OpeningWords) (moment : ℕ) (blocks : List (List ℕ))
        (log : List Event) → AreOpened openings moment blocks log →
        calls_in log ≡ opening_calls openings blocks }
{}

/// An opening is an open towards the end with a fingerprint, or a search for a name, at its one
/// address.
pub fn an_opening_opens_or_seeks()
    ensures print { (print : List ℕ) (at : AddressParts) (draws : Draws) →
        opening_call (Print print) at draws ≡ Open print (at ∷ []) draws }
    ensures name { (name : List ℕ) (at : AddressParts) (draws : Draws) →
        opening_call (Name name) at draws ≡ Seek name (at ∷ []) draws }
{}

/// A turn with a datagram takes it, then opens a flow and queues the message in each session that
/// it opened, in their order, and then ticks; with no message, and with no datagram, nothing else
/// is called.
pub fn a_turn_receives_then_sends_then_ticks()
    ensures all { (message : List ℕ) (from : AddressParts) (datagram : List ℕ) (moment : ℕ)
        (draws : Draws) (log : List Event) →
        AreTurnEvents (Some message) (Datagram from datagram) moment draws log →
        calls_in log ≡ Receive from datagram draws
        ∷ (message_calls message (opened_in (first_added log)) ++ Tick draws ∷ []) }
    ensures silent { (from : AddressParts) (datagram : List ℕ) (moment : ℕ) (draws : Draws)
        (log : List Event) → AreTurnEvents None (Datagram from datagram) moment draws log →
        calls_in log ≡ Receive from datagram draws ∷ Tick draws ∷ [] }
    ensures quiet { (message : Option (List ℕ)) (moment : ℕ) (draws : Draws) (log : List Event) →
        AreTurnEvents message Quiet moment draws log → calls_in log ≡ Tick draws ∷ [] }
{}

/// A random source that fails before turn 0 is done, and gives nothing, leaves the node's link
/// alone: the first draw comes before the bind. One that fails behind the bind has given the first
/// block. A bind comes after one block, and openings take at most one more each.
pub fn a_node_draws_before_it_binds()
    ensures untouched { (v : Serving) (x y : Told) → CutAtStart EntropyFault v x y →
        0 < length x.blocks → length y.blocks ≡ length x.blocks → y ≡ x }
    ensures bound { (v : Serving) (x y : Told) → CutAtStart EntropyFault v x y →
        0 < length x.blocks → y.line.calls ≡ x.line.calls ++ Bind v.bind ∷ [] →
        length y.blocks < length x.blocks }
    ensures failed { (v : Serving) (x y : Told) → CutAtStart LinkFault v x y →
        y.blocks ≡ drop 1 x.blocks }
{}

/// Of a turn that was broken off the whole report is there where anything was sent, and the line of
/// a lost datagram where another was sent after it.
pub fn a_turn_writes_before_it_sends_on()
    ensures report { (front : Front) (count : ℕ) (report part : List ℕ) (call : LinkCall)
        (calls : List LinkCall) → IsPart front count report (call ∷ calls) part →
        take (length report) part ≡ report }
    ensures lost { (front : Front) (count : ℕ) (to : AddressParts) (datagram : List ℕ)
        (call : LinkCall) (calls : List LinkCall) (lines : List ℕ) →
        LinesSoFar front count (Send to datagram false ∷ call ∷ calls) lines →
        take (length (unsent_line front (count + 1))) lines ≡ unsent_line front (count + 1) }
{}

/// A flow for a message has priority 4 and the one byte 0x6d as metadata; the message goes into
/// flow 0. Sessions that were opened get one, those that were born don't.
pub fn a_message_goes_to_each_opened_session()
    ensures flow { opens_flow ≡ OpenFlow 4 (109 ∷ []) None }
    ensures message { queues (1 ∷ 2 ∷ []) ≡ Queue 0 (1 ∷ 2 ∷ [])
        (record { deadline = None; resends = None }) }
    ensures opened { (a b c : Joined) → opened_in (FactEntry (Opened a) ∷ FactEntry (Born b)
        ∷ Closed 7 ∷ FactEntry (Opened c) ∷ []) ≡ a.near ∷ c.near ∷ [] }
{}

/// Lines begin with the turn and `self`. A datagram that is lost has its number in the run.
pub fn lines_are_told_of_self()
    ensures unsent { (turn number : ℕ) → unsent_line (InReport turn) number
        ≡ (decimal turn ++ codes " self ") ++ (codes "unsent " ++ (decimal number ++ codes "\n")) }
    ensures refused { (turn : ℕ) → refused_text None turn (NotOpened (Start AttemptsSpent))
        ≡ (decimal turn ++ codes " self ") ++ codes "refused attempts-spent\n" }
    ensures numbers { (front : Front) (a : AddressParts) (b : List ℕ) → unsent_text front 10
        (Send a b false ∷ Send a b true ∷ Send a b false ∷ [])
        ≡ unsent_line front 11 ++ (unsent_line front 13 ++ []) }
{}

/// An end learns the next secret in turn 0 where the words have one, and goes over to it in their turn
/// alone.
pub fn an_end_goes_over_in_its_turn()
    ensures next { (secret : List ℕ) → learn_call (Some secret) ≡ Some (Learn secret) }
    ensures alone { learn_call None ≡ None }
    ensures before { advance_call (Some 7) 6 ≡ None }
    ensures at { advance_call (Some 7) 7 ≡ Some Advance }
    ensures after { advance_call (Some 7) 8 ≡ None }
    ensures never { (turn : ℕ) → advance_call None turn ≡ None }
{}

/// In turn 0 the next secret is learnt before the openings, and an end goes over to it before all
/// else that it does in its turn.
pub fn what_succeeds_comes_first()
    ensures zero { (next : Option (List ℕ)) (openings : List OpeningWords) (moment : ℕ)
        (blocks : List (List ℕ)) (log : List Event) →
        AreZeroEvents next openings moment blocks log →
        calls_in log ≡ asked (learn_call next) ++ opening_calls openings blocks }
    ensures turn { (advance : Option ℕ) (turn : ℕ) (message : Option (List ℕ)) (given : Given)
        (moment : ℕ) (draws : Draws) (log : List Event) →
        AreWholeEvents advance turn message given moment draws log →
        (others : List Event) × AreTurnEvents message given moment draws others ×
        (calls_in log ≡ asked (advance_call advance turn) ++ calls_in others) }
{}

/// A journal tells of a lost datagram behind `#`, and of a refused call by its line alone. Nothing
/// stands in front of a report.
pub fn lines_of_a_journal()
    ensures unsent { (number : ℕ) → unsent_line InJournal number
        ≡ (codes "# unsent " ++ decimal number) ++ codes "\n" }
    ensures refused { (label : List ℕ) (turn : ℕ) →
        refused_text (Some label) turn (NotOpened (Start AttemptsSpent)) ≡ [] }
    ensures front { (setup : Setup) → head_text None setup ≡ [] }
{}
