//! What cookies and their tests keep, for callers' proofs. The functions do nothing: the contract
//! of each is its law.

ghost use Rattle.cookies.specs.Cookie.{TellsOnePlaceAndMoment, TestIsRight};

/// A cookie tells one place and one moment.
pub fn a_cookie_tells_one_place_and_moment()
    ensures { TellsOnePlaceAndMoment }
{}

/// A test's answer is right, whatever the bytes are.
pub fn the_answer_of_a_test_is_right()
    ensures { TestIsRight }
{}
