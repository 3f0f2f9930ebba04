//! The texts of lines, at their edges and one beside. The functions do nothing: the contract of
//! each states what the definitions that the reader and the writer cite are there. All of it is own.

ghost use Rattle.std.specs.Prelude.{◌≡◌, ◌∷◌, ◌++◌, ◌-◌, ◌^◌, ℕ, List, [], true, false, codes, replicate};
ghost use Rattle.crypto_profile.specs.declared.keys.Context.TheVariants.{Startup, Session};
ghost use Rattle.glare_core.specs.declared.facts.Fact.TheVariants.{Started, Born, Opened, Confirmed, Ended};
ghost use Rattle.glare_core.specs.declared.facts.Why.TheVariants.{Cancelled, Expired, Glare, Override, Unconfirmed, Near, Far, Idle};
ghost use Rattle.audit_text.specs.declared.line.LogCall.TheVariants.{Open, Seek, Cancel, Unseek, Close, Learn, Advance, Receive, Tick, Other};
ghost use Rattle.audit_text.specs.declared.line.LogEntry.TheVariants.{Fact as FactEntry, Closed, Sought, Unsought, Learnt, Advanced, Out};
ghost use Rattle.audit_text.specs.declared.line.LogLine.TheVariants.{Skip, Log, Event, Entry};
ghost use Rattle.audit_text.specs.Grammar.{IsLineOf, IsOutside};
ghost use Rattle.audit_text.specs.Rows.{IsDrawnRow, IsEntryRow, IsNoCall, IsNoEntry, IsSilentRow, at, drawn_line};

/// The text of each call. A fingerprint or a secret has 64 digits, a nonce or a tag 32.
pub fn each_call_has_its_text()
    ensures opens { IsDrawnRow (codes "open " ++ replicate 64 0x31 ++ codes " " ++ replicate 32
        0x33) (Open (replicate 32 0x11) (replicate 16 0x33)) }
    ensures seeks { IsDrawnRow (codes "seek 4142 " ++ replicate 32 0x33) (Seek (0x41 ∷ 0x42 ∷ [])
        (replicate 16 0x33)) }
    ensures cancels { IsSilentRow (codes "cancel 7") (Cancel 7) }
    ensures unseeks { IsSilentRow (codes "unseek 7") (Unseek 7) }
    ensures closes { IsSilentRow (codes "close 7") (Close 7) }
    ensures learns { IsSilentRow (codes "learn " ++ replicate 64 0x31) (Learn (replicate 32 0x11)) }
    ensures advances { IsSilentRow (codes "advance") Advance }
    ensures receives { IsDrawnRow (codes "receive 1.2.3.4:5 00ff") (Receive at (0 ∷ 255 ∷ [])) }
    ensures receives_nothing { IsDrawnRow (codes "receive 1.2.3.4:5 -") (Receive at []) }
    ensures ticks { IsDrawnRow (codes "tick") Tick }
    ensures others { IsSilentRow (codes "other") Other }
{}

/// A call that draws no nonce has one of zeros. One that draws may have any.
pub fn calls_that_draw_nothing_have_a_nonce_of_zeros()
    ensures cancels { IsOutside (drawn_line (codes "cancel 7")) }
    ensures unseeks { IsOutside (drawn_line (codes "unseek 7")) }
    ensures closes { IsOutside (drawn_line (codes "close 7")) }
    ensures learns { IsOutside (drawn_line (codes "learn " ++ replicate 64 0x31)) }
    ensures advances { IsOutside (drawn_line (codes "advance")) }
    ensures others { IsOutside (drawn_line (codes "other")) }
    ensures opens { IsSilentRow (codes "open " ++ replicate 64 0x31 ++ codes " " ++ replicate 32
        0x33) (Open (replicate 32 0x11) (replicate 16 0x33)) }
    ensures seeks { IsSilentRow (codes "seek 4142 " ++ replicate 32 0x33) (Seek (0x41 ∷ 0x42 ∷ [])
        (replicate 16 0x33)) }
    ensures receives { IsSilentRow (codes "receive 1.2.3.4:5 -") (Receive at []) }
    ensures ticks { IsSilentRow (codes "tick") Tick }
{}

/// The text of each entry.
pub fn each_entry_has_its_text()
    ensures started { IsEntryRow (codes "started " ++ replicate 64 0x31 ++ codes " 2 3 " ++
        replicate 32 0x35) (FactEntry (Started (replicate 32 0x11) 2 3 (replicate 16 0x55))) }
    ensures born { IsEntryRow (codes "born" ++ codes " " ++ replicate 64 0x31 ++ codes " 2 3 4 "
        ++ replicate 32 0x35 ++ codes " " ++ replicate 32 0x36 ++ codes " 7") (FactEntry (Born
        (record {
          peer = replicate 32 0x11;
          n = 2;
          near = 3;
          far = 4;
          ni = replicate 16 0x55;
          nr =
              replicate 16 0x66;
          k = 7;
        }))) }
    ensures opened { IsEntryRow (codes "opened" ++ codes " " ++ replicate 64 0x31 ++ codes
        " 2 3 4 " ++ replicate 32 0x35 ++ codes " " ++ replicate 32 0x36 ++ codes " 7") (FactEntry
        (Opened (record {
          peer = replicate 32 0x11;
          n = 2;
          near = 3;
          far = 4;
          ni = replicate 16
              0x55;
          nr = replicate 16 0x66;
          k = 7;
        }))) }
    ensures confirmed { IsEntryRow (codes "confirmed " ++ replicate 64 0x31 ++ codes " 3")
        (FactEntry (Confirmed (replicate 32 0x11) 3)) }
    ensures ended { IsEntryRow (codes "ended " ++ replicate 64 0x31 ++ codes " 3 idle") (FactEntry
        (Ended (replicate 32 0x11) 3 Idle)) }
    ensures closed { IsEntryRow (codes "closed 3") (Closed 3) }
    ensures sought { IsEntryRow (codes "sought 3 4142") (Sought 3 (0x41 ∷ 0x42 ∷ [])) }
    ensures unsought { IsEntryRow (codes "unsought 3 expired") (Unsought 3 Expired) }
    ensures learnt { IsEntryRow (codes "learnt 8") (Learnt 8) }
    ensures advanced { IsEntryRow (codes "advanced 8") (Advanced 8) }
    ensures startup { IsEntryRow (codes "out 1.2.3.4:5 startup 8 00ff") (Out at (0 ∷ 255 ∷ [])
        (Startup 8)) }
    ensures empty { IsEntryRow (codes "out 1.2.3.4:5 startup 8 -") (Out at [] (Startup 8)) }
    ensures session { IsEntryRow (codes "out 1.2.3.4:5 session 8 " ++ replicate 32 0x35 ++ codes
        " " ++ replicate 32 0x36 ++ codes " " ++ replicate 64 0x31 ++ codes " " ++ replicate 64
        0x37 ++ codes " 3 4 i 00ff") (Out at (0 ∷ 255 ∷ []) (Session 8 (replicate 16 0x55)
        (replicate 16 0x66) (replicate 32 0x11) (replicate 32 0x77) 3 4 true)) }
    ensures back { IsEntryRow (codes "out 1.2.3.4:5 session 8 " ++ replicate 32 0x35 ++ codes " "
        ++ replicate 32 0x36 ++ codes " " ++ replicate 64 0x31 ++ codes " " ++ replicate 64 0x37
        ++ codes " 3 4 r -") (Out at [] (Session 8 (replicate 16 0x55) (replicate 16 0x66)
        (replicate 32 0x11) (replicate 32 0x77) 3 4 false)) }
{}

/// The name of each reason, and one with another last letter.
pub fn each_reason_has_its_name()
    ensures is_cancelled { IsEntryRow (codes "unsought 3 cancelled") (Unsought 3 Cancelled) }
    ensures no_cancelled { IsNoEntry (codes "unsought 3 cancellex") }
    ensures is_expired { IsEntryRow (codes "unsought 3 expired") (Unsought 3 Expired) }
    ensures no_expired { IsNoEntry (codes "unsought 3 expirex") }
    ensures is_glare { IsEntryRow (codes "unsought 3 glare") (Unsought 3 Glare) }
    ensures no_glare { IsNoEntry (codes "unsought 3 glarx") }
    ensures is_override { IsEntryRow (codes "unsought 3 override") (Unsought 3 Override) }
    ensures no_override { IsNoEntry (codes "unsought 3 overridx") }
    ensures is_unconfirmed { IsEntryRow (codes "unsought 3 unconfirmed") (Unsought 3 Unconfirmed) }
    ensures no_unconfirmed { IsNoEntry (codes "unsought 3 unconfirmex") }
    ensures is_near { IsEntryRow (codes "unsought 3 near") (Unsought 3 Near) }
    ensures no_near { IsNoEntry (codes "unsought 3 neax") }
    ensures is_far { IsEntryRow (codes "unsought 3 far") (Unsought 3 Far) }
    ensures no_far { IsNoEntry (codes "unsought 3 fax") }
    ensures is_idle { IsEntryRow (codes "unsought 3 idle") (Unsought 3 Idle) }
    ensures no_idle { IsNoEntry (codes "unsought 3 idlx") }
{}

/// One letter of each call is another.
pub fn other_words_are_no_calls()
    ensures opens { IsNoCall (codes "opem " ++ replicate 64 0x31 ++ codes " " ++ replicate 32
        0x33) }
    ensures seek { IsNoCall (codes "seel 4142 " ++ replicate 32 0x33) }
    ensures cancel { IsNoCall (codes "cancek 7") }
    ensures unseek { IsNoCall (codes "unseel 7") }
    ensures close { IsNoCall (codes "closf 7") }
    ensures learn { IsNoCall (codes "leart " ++ replicate 64 0x31) }
    ensures advance { IsNoCall (codes "advancf") }
    ensures receive { IsNoCall (codes "receivf 1.2.3.4:5 00ff") }
    ensures tick { IsNoCall (codes "tich") }
    ensures other { IsNoCall (codes "othes") }
    ensures capital { IsNoCall (codes "Tick") }
{}

/// One letter of each entry is another.
pub fn other_words_are_no_entries()
    ensures started { IsNoEntry (codes "startee " ++ replicate 64 0x31 ++ codes " 2 3 " ++
        replicate 32 0x35) }
    ensures born { IsNoEntry (codes "borm" ++ codes " " ++ replicate 64 0x31 ++ codes " 2 3 4 " ++
        replicate 32 0x35 ++ codes " " ++ replicate 32 0x36 ++ codes " 7") }
    ensures opened { IsNoEntry (codes "openee" ++ codes " " ++ replicate 64 0x31 ++ codes
        " 2 3 4 " ++ replicate 32 0x35 ++ codes " " ++ replicate 32 0x36 ++ codes " 7") }
    ensures confirmed { IsNoEntry (codes "confirmee " ++ replicate 64 0x31 ++ codes " 3") }
    ensures ended { IsNoEntry (codes "endee " ++ replicate 64 0x31 ++ codes " 3 idle") }
    ensures closed { IsNoEntry (codes "closee 3") }
    ensures sought { IsNoEntry (codes "sougt 3 4142") }
    ensures unsought { IsNoEntry (codes "unsougt 3 expired") }
    ensures learnt { IsNoEntry (codes "learn 8") }
    ensures advanced { IsNoEntry (codes "advance 8") }
    ensures out { IsNoEntry (codes "ouu 1.2.3.4:5 startup 8 00ff") }
    ensures startup { IsNoEntry (codes "out 1.2.3.4:5 startuq 8 00ff") }
    ensures session { IsNoEntry (codes "out 1.2.3.4:5 sessiom 8 " ++ replicate 32 0x35 ++ codes
        " " ++ replicate 32 0x36 ++ codes " " ++ replicate 64 0x31 ++ codes " " ++ replicate 64
        0x37 ++ codes " 3 4 i 00ff") }
    ensures sender { IsNoEntry (codes "out 1.2.3.4:5 session 8 " ++ replicate 32 0x35 ++ codes " "
        ++ replicate 32 0x36 ++ codes " " ++ replicate 64 0x31 ++ codes " " ++ replicate 64 0x37
        ++ codes " 3 4 j 00ff") }
{}

/// The head of a log, with its numbers at their ends. A certificate has 17 to 80 bytes.
pub fn a_log_has_its_head()
    ensures first { IsLineOf (codes "log a 1 2 3 " ++ replicate 64 0x31 ++ codes " " ++ replicate
        64 0x32 ++ codes " " ++ replicate 34 0x31) (Log (codes "a") (record {
          max_peers = 1;
          max_sessions = 2;
          generation = 3;
          secret = replicate 32 0x11;
          cookie_secret = replicate
              32 0x22;
          cert = replicate 17 0x11;
        })) }
    ensures zeros { IsLineOf (codes "log a 0 0 0 " ++ replicate 64 0x31 ++ codes " " ++ replicate
        64 0x32 ++ codes " " ++ replicate 34 0x31) (Log (codes "a") (record {
          max_peers = 0;
          max_sessions = 0;
          generation = 0;
          secret = replicate 32 0x11;
          cookie_secret = replicate
              32 0x22;
          cert = replicate 17 0x11;
        })) }
    ensures most { IsLineOf (codes "log a 4294967295 4294967295 18446744073709551615 " ++
        replicate 64 0x31 ++ codes " " ++ replicate 64 0x32 ++ codes " " ++ replicate 34 0x31)
        (Log (codes "a") (record {
          max_peers = 2 ^ 32 - 1;
          max_sessions = 2 ^ 32 - 1;
          generation = 2 ^ 64 - 1;
          secret = replicate 32 0x11;
          cookie_secret = replicate 32 0x22;
          cert = replicate 17 0x11;
        })) }
    ensures peers { IsOutside (codes "log a 4294967296 2 3 " ++ replicate 64 0x31 ++ codes " " ++
        replicate 64 0x32 ++ codes " " ++ replicate 34 0x31) }
    ensures sessions { IsOutside (codes "log a 1 4294967296 3 " ++ replicate 64 0x31 ++ codes " "
        ++ replicate 64 0x32 ++ codes " " ++ replicate 34 0x31) }
    ensures generation { IsOutside (codes "log a 1 2 18446744073709551616 " ++ replicate 64 0x31
        ++ codes " " ++ replicate 64 0x32 ++ codes " " ++ replicate 34 0x31) }
    ensures short_cert { IsOutside (codes "log a 1 2 3 " ++ replicate 64 0x31 ++ codes " " ++
        replicate 64 0x32 ++ codes " " ++ replicate 32 0x31) }
    ensures long_cert { IsLineOf (codes "log a 1 2 3 " ++ replicate 64 0x31 ++ codes " " ++
        replicate 64 0x32 ++ codes " " ++ replicate 160 0x31) (Log (codes "a") (record {
          max_peers = 1;
          max_sessions = 2;
          generation = 3;
          secret = replicate 32 0x11;
          cookie_secret = replicate 32 0x22;
          cert = replicate 80 0x11;
        })) }
    ensures longer_cert { IsOutside (codes "log a 1 2 3 " ++ replicate 64 0x31 ++ codes " " ++
        replicate 64 0x32 ++ codes " " ++ replicate 162 0x31) }
    ensures instance { IsLineOf (codes "log a 1 2 3 " ++ replicate 64 0x31 ++ codes " " ++
        replicate 64 0x32 ++ codes " " ++ replicate 32 0x66 ++ codes "7f") (Log (codes "a")
        (record {
          max_peers = 1;
          max_sessions = 2;
          generation = 3;
          secret = replicate 32
              0x11;
          cookie_secret = replicate 32 0x22;
          cert = replicate 16 0xff ++ 0x7f ∷ [];
        })) }
    ensures not_ascii { IsOutside (codes "log a 1 2 3 " ++ replicate 64 0x31 ++ codes " " ++
        replicate 64 0x32 ++ codes " " ++ replicate 32 0x66 ++ codes "80") }
    ensures no_cert { IsOutside (codes "log a 1 2 3 " ++ replicate 64 0x31 ++ codes " " ++
        replicate 64 0x32 ++ codes " " ++ codes "-") }
    ensures word { IsOutside (codes "lof a 1 2 3 " ++ replicate 64 0x31 ++ codes " " ++ replicate
        64 0x32 ++ codes " " ++ replicate 34 0x31) }
{}

/// A name has 1 to 16 of a to z and 0 to 9. A moment is below 2^64 and has no zero in front.
pub fn names_and_moments_have_their_limits()
    ensures first { IsLineOf (codes "event a 0 " ++ replicate 32 0x30 ++ codes " tick") (Event
        (codes "a") (record { moment = 0; nonce = replicate 16 0; call = Tick })) }
    ensures digit { IsLineOf (codes "event 0 10 " ++ replicate 32 0x30 ++ codes " tick") (Event
        (codes "0") (record { moment = 10; nonce = replicate 16 0; call = Tick })) }
    ensures last { IsLineOf (codes "event z9 9 " ++ replicate 32 0x30 ++ codes " tick") (Event
        (codes "z9") (record { moment = 9; nonce = replicate 16 0; call = Tick })) }
    ensures longest { IsLineOf (codes "event abcdefghijklmnop 1 " ++ replicate 32 0x30 ++ codes
        " tick") (Event (codes "abcdefghijklmnop") (record {
          moment = 1;
          nonce = replicate 16 0;
          call = Tick;
        })) }
    ensures longer { IsOutside (codes "event abcdefghijklmnopq 1 " ++ replicate 32 0x30 ++ codes
        " tick") }
    ensures none { IsOutside (codes "event  1 " ++ replicate 32 0x30 ++ codes " tick") }
    ensures capital { IsOutside (codes "event A 1 " ++ replicate 32 0x30 ++ codes " tick") }
    ensures hyphen { IsOutside (codes "event a-b 1 " ++ replicate 32 0x30 ++ codes " tick") }
    ensures most { IsLineOf (codes "event a 18446744073709551615 " ++ replicate 32 0x30 ++ codes
        " tick") (Event (codes "a") (record {
          moment = 2 ^ 64 - 1;
          nonce = replicate 16 0;
          call =
              Tick;
        })) }
    ensures more { IsOutside (codes "event a 18446744073709551616 " ++ replicate 32 0x30 ++ codes
        " tick") }
    ensures zero_in_front { IsOutside (codes "event a 01 " ++ replicate 32 0x30 ++ codes " tick") }
    ensures sign { IsOutside (codes "event a +1 " ++ replicate 32 0x30 ++ codes " tick") }
    ensures no_moment { IsOutside (codes "event a  " ++ replicate 32 0x30 ++ codes " tick") }
    ensures word { IsOutside (codes "evenu a 0 " ++ replicate 32 0x30 ++ codes " tick") }
{}

/// Each nonce, tag, fingerprint and secret has all its digits, which are lower-case.
pub fn digits_are_counted()
    ensures short_nonce { IsOutside (codes "event a 0 " ++ replicate 31 0x30 ++ codes " tick") }
    ensures less_nonce { IsOutside (codes "event a 0 " ++ replicate 30 0x30 ++ codes " tick") }
    ensures more_nonce { IsOutside (codes "event a 0 " ++ replicate 34 0x30 ++ codes " tick") }
    ensures lower { IsLineOf (codes "event a 0 " ++ replicate 32 0x66 ++ codes " tick") (Event
        (codes "a") (record { moment = 0; nonce = replicate 16 0xff; call = Tick })) }
    ensures capital { IsOutside (codes "event a 0 " ++ replicate 32 0x46 ++ codes " tick") }
    ensures beyond { IsOutside (codes "event a 0 " ++ replicate 32 0x67 ++ codes " tick") }
    ensures less_print { IsNoCall (codes "open " ++ replicate 62 0x31 ++ codes " " ++ replicate 32
        0x33) }
    ensures more_print { IsNoCall (codes "open " ++ replicate 66 0x31 ++ codes " " ++ replicate 32
        0x33) }
    ensures less_tag { IsNoCall (codes "open " ++ replicate 64 0x31 ++ codes " " ++ replicate 30
        0x33) }
    ensures more_tag { IsNoCall (codes "open " ++ replicate 64 0x31 ++ codes " " ++ replicate 34
        0x33) }
    ensures less_secret { IsNoCall (codes "learn " ++ replicate 62 0x31) }
    ensures more_secret { IsNoCall (codes "learn " ++ replicate 66 0x31) }
    ensures odd { IsNoCall (codes "receive 1.2.3.4:5 00f") }
    ensures capital_bytes { IsNoCall (codes "receive 1.2.3.4:5 0F") }
    ensures no_bytes { IsNoCall (codes "receive 1.2.3.4:5 ") }
{}

/// Attempts and generations have numbers below 2^64, sessions and searches IDs below 2^32.
pub fn numbers_of_calls_and_entries_have_their_limits()
    ensures cancels { IsSilentRow (codes "cancel 18446744073709551615") (Cancel (2 ^ 64 - 1)) }
    ensures cancels_no_more { IsNoCall (codes "cancel 18446744073709551616") }
    ensures closes { IsSilentRow (codes "close 4294967295") (Close (2 ^ 32 - 1)) }
    ensures closes_no_more { IsNoCall (codes "close 4294967296") }
    ensures unseeks { IsSilentRow (codes "unseek 4294967295") (Unseek (2 ^ 32 - 1)) }
    ensures unseeks_no_more { IsNoCall (codes "unseek 4294967296") }
    ensures zero_in_front { IsNoCall (codes "close 01") }
    ensures learnt { IsEntryRow (codes "learnt 18446744073709551615") (Learnt (2 ^ 64 - 1)) }
    ensures learnt_no_more { IsNoEntry (codes "learnt 18446744073709551616") }
    ensures advanced { IsEntryRow (codes "advanced 18446744073709551615") (Advanced (2 ^ 64 - 1)) }
    ensures advanced_no_more { IsNoEntry (codes "advanced 18446744073709551616") }
    ensures closed { IsEntryRow (codes "closed 4294967295") (Closed (2 ^ 32 - 1)) }
    ensures closed_no_more { IsNoEntry (codes "closed 4294967296") }
    ensures startup { IsEntryRow (codes "out 1.2.3.4:5 startup 18446744073709551615 -") (Out at []
        (Startup (2 ^ 64 - 1))) }
    ensures startup_no_more { IsNoEntry (codes "out 1.2.3.4:5 startup 18446744073709551616 -") }
{}

/// A service name has 1 to 64 bytes below 0x80.
pub fn service_names_have_1_to_64_bytes()
    ensures shortest { IsEntryRow (codes "sought 3 00") (Sought 3 (0 ∷ [])) }
    ensures longest { IsEntryRow (codes "sought 3 " ++ replicate 128 0x37) (Sought 3 (replicate 64
        0x77)) }
    ensures longer { IsNoEntry (codes "sought 3 " ++ replicate 130 0x37) }
    ensures none { IsNoEntry (codes "sought 3 -") }
    ensures not_ascii { IsNoEntry (codes "sought 3 80") }
    ensures seeks_none { IsNoCall (codes "seek - " ++ replicate 32 0x33) }
    ensures seeks_longest { IsSilentRow (codes "seek " ++ replicate 128 0x37 ++ codes " " ++
        replicate 32 0x33) (Seek (replicate 64 0x77) (replicate 16 0x33)) }
    ensures seeks_no_more { IsNoCall (codes "seek " ++ replicate 130 0x37 ++ codes " " ++
        replicate 32 0x33) }
{}

/// A line has at most 8,192 bytes, also one that is skipped. A line that begins with `#` is
/// skipped.
pub fn a_line_has_at_most_8192_bytes()
    ensures skipped { IsLineOf (codes "#") Skip }
    ensures comment { IsLineOf (codes "# unsent 7") Skip }
    ensures longest_skipped { IsLineOf (codes "#" ++ replicate 8191 0x61) Skip }
    ensures longer_skipped { IsOutside (codes "#" ++ replicate 8192 0x61) }
    ensures longest { IsLineOf (codes "+ out 1.2.3.4:5 startup 8 " ++ replicate 8166 0x66) (Entry
        (Out at (replicate 4083 0xff) (Startup 8))) }
    ensures longer { IsOutside (codes "+ out 1.2.3.4:5 startup 10 " ++ replicate 8166 0x66) }
    ensures none { IsOutside [] }
    ensures space_in_front { IsOutside (codes " # unsent 7") }
    ensures plus_alone { IsOutside (codes "+") }
    ensures no_entry { IsOutside (codes "+ ") }
    ensures two_spaces { IsOutside (codes "+  closed 3") }
    ensures space_behind { IsOutside (codes "+ closed 3 ") }
    ensures line_feed { IsOutside (codes "+ closed 3\n") }
    ensures more_words { IsOutside (codes "+ closed 3 4") }
    ensures no_plus { IsOutside (codes "closed 3") }
{}
