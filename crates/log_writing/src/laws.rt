//! Laws of what is written of ends. The functions do nothing: the contract of each is a law over
//! the definitions that the writer cites.

ghost use Rattle.std.specs.Prelude.{◌≡◌, ◌∷◌, ◌++◌, ℕ, List};
ghost use Rattle.std.specs.List.{AllByRecursion};
ghost use Rattle.endpoint_model.specs.Event.{Event, Setup, moment_at};
ghost use Rattle.endpoint_laws.specs.History.{Happened, History, log_of};
ghost use Rattle.endpoint_laws.specs.Past.{last_moment};
ghost use Rattle.rtmfp_script.specs.Grammar.{IsName};
ghost use Rattle.audit_text.specs.Grammar.{IsWithin};
ghost use Rattle.log_writing.specs.Written.{event_lines, head_line, journal_text, text_of};
ghost use Rattle.log_writing.specs.Told.{IsReadBack, IsTold};

/// What is written of an event is read from its lines again, each as what was written.
pub fn events_read_back()
    ensures { (name : List ℕ) (moment : ℕ) (e : Event) → IsName name → IsTold moment e →
        AllByRecursion IsReadBack (event_lines name moment e) }
{}

/// What is written of what an end was given first is read from its line again.
pub fn heads_read_back()
    ensures { (name : List ℕ) (setup : Setup) → IsWithin (head_line name setup) →
        IsReadBack (head_line name setup) }
{}

/// Each event of a history adds its lines at the end of the text of the logs.
pub fn each_event_adds_its_lines()
    ensures { (names : ℕ → List ℕ) (setups : List Setup) (h : Happened) (earlier : History) →
        journal_text names setups (h ∷ earlier) ≡ journal_text names setups earlier ++ text_of
        (event_lines (names h.who) (moment_at (last_moment 0 (log_of h.who earlier)) h.event)
        h.event) }
{}
