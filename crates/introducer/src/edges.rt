//! Rows and kept sessions at their edges and one beside. The functions do nothing: the contract of
//! each states what the definitions that the other contracts cite are there.

ghost use Rattle.std.specs.Prelude.{◌≡◌, ◌∷◌, ℕ, List, [], true, false, Some, None};
ghost use Rattle.std.specs.FinMap.{contains_key, len};
ghost use Rattle.introducer.specs.declared.refusal.RowRefusal.TheVariants.{Candidates, RowsFull};
ghost use Rattle.introducer.specs.Directory.{AddressRows, row_refusal};
ghost use Rattle.introducer.specs.Happenings.{Goes, Keeps, kept_last};
ghost use Rattle.introducer.specs.Edges.{both, one, two};

/// A row has 1 to 16 addresses. There are 1,024 rows at most, of which each can be replaced; the
/// count of addresses is asked first.
pub fn rows_have_their_limits()
    ensures none { (rows : AddressRows) (print : List ℕ) →
        row_refusal rows print 0 ≡ Some (Candidates 0) }
    ensures most { (rows : AddressRows) (print : List ℕ) → len rows ≡ 1023 →
        row_refusal rows print 16 ≡ None }
    ensures too_many { (rows : AddressRows) (print : List ℕ) →
        row_refusal rows print 17 ≡ Some (Candidates 17) }
    ensures full { (rows : AddressRows) (print : List ℕ) → len rows ≡ 1024 →
        contains_key rows print ≡ false → row_refusal rows print 1 ≡ Some (RowsFull 1024) }
    ensures replaced { (rows : AddressRows) (print : List ℕ) → len rows ≡ 1024 →
        contains_key rows print ≡ true → row_refusal rows print 1 ≡ None }
{}

/// The session that was kept last counts, then the one before it; a session of another end, and one
/// that is gone, don't. Under a session ID that is kept again the one before is forgotten with it.
/// `a_hello_goes_to_the_last_kept_session` says that a directory answers so.
pub fn the_last_kept_session_counts()
    ensures none { (print : List ℕ) → kept_last [] [] print ≡ None }
    ensures last { kept_last [] both one ≡ Some 11 }
    ensures before { kept_last [] (Goes 11 ∷ both) one ≡ Some 10 }
    ensures other { kept_last [] (Goes 11 ∷ both) two ≡ Some 20 }
    ensures stranger { kept_last [] both (3 ∷ []) ≡ None }
    ensures gone { kept_last [] (Goes 20 ∷ both) two ≡ None }
    ensures unknown { kept_last [] (Goes 12 ∷ both) one ≡ Some 11 }
    ensures again { kept_last [] (Keeps one 10 ∷ both) one ≡ Some 10 }
    ensures gone_again { kept_last [] (Goes 10 ∷ Keeps one 10 ∷ both) one ≡ Some 11 }
{}
