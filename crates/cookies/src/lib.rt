//! Address cookies: what a responder gives for an address, and takes back from there alone and for
//! a while (RFC 7016 section 3.5.1.1). The form is this project's own.
//!
//! A cookie is the moment of its issue in milliseconds (8 bytes), the address (7 or 19 bytes), and
//! the first 16 bytes of their HMAC under the maker's secret. No call takes memory.
#![tactic(auto)]

ghost use Rattle.std.specs.Prelude.{◌≡◌, ◌≤◌, length, take};
ghost use Rattle.std.specs.Int.{from_be_bytes};
ghost use Rattle.cookies.specs.Cookie.{good_cookie_test, moment_of, test_of};

use crypto_profile::{HmacKey, same_bytes};
use rtmfp_forms::{Address, FormFault, read_address, write_address};
use std::marker::Model;

pub mod edges;
pub mod laws;

const MOMENT_LEN: usize = 8;

const TAG_LEN: usize = 16;

const OBSERVED: u8 = 2;
// In milliseconds.
const LIFETIME: u64 = 95_000;

/// Makes cookies under a secret, and tests what comes back.
#[derive(Drop)]
pub struct CookieMaker {
    secret: HmacKey,
}

impl Model for CookieMaker {
    ghost use Rattle.std.specs.Prelude.{ℕ, List};

    ghost Value = { List ℕ };

    ghost view = { λ maker. maker.secret };
}

/// A cookie: 31 bytes for an IPv4 address, 43 for an IPv6 address.
#[derive(Drop)]
pub struct Cookie {
    bytes: [u8; 43],
    len: usize,
}

impl Model for Cookie {
    ghost use Rattle.std.specs.Prelude.{ℕ, List, take, ◌==◌, ◌||◌, IsTrue};

    ghost Value = { List ℕ };

    ghost view = { λ cookie. take cookie.len cookie.bytes };

    ghost invariant = { λ cookie. IsTrue ((cookie.len == 31) || (cookie.len == 43)) };
}

impl Cookie {
    ghost use Rattle.std.specs.Prelude.{◌≡◌, ◌==◌, ◌||◌, length, IsTrue};

    /// The bytes, 31 or 43.
    pub fn bytes(&self) -> &[u8]
        ensures value { result.now ≡ self.now }
        ensures length { IsTrue ((length result.now == 31) || (length result.now == 43)) }
    {
        &self.bytes[..self.len]
    }
}

/// What a test finds.
#[derive(Clone, Copy, Debug, PartialEq, Eq)]
pub enum CookieTest {
    /// The secret gives these bytes for no address and no moment.
    Bad,
    /// The cookie was made for another place.
    Moved,
    /// It was issued more than 95,000 ms ago.
    Expired,
    /// None of these.
    Current,
}

impl CookieMaker {
    ghost use Rattle.std.specs.Prelude.{◌≡◌, ◌≤◌, length};
    ghost use Rattle.cookies.specs.Cookie.{IsAnswer, cookie_found, cookie_of, cookie_read, cookie_test};

    /// A maker of cookies under a secret.
    pub fn new(secret: [u8; 32]) -> CookieMaker
        ensures { result ≡ secret }
    {
        CookieMaker {
            secret: HmacKey::of(&secret),
        }
    }

    /// The cookie for an address, issued at a moment in milliseconds. The address's origin doesn't
    /// count.
    pub fn make(&self, to: &Address, moment: u64) -> Cookie
        ensures { result ≡ cookie_of self.now to.now moment }
    {
        let observed = Address {
            v6: to.v6,
            origin: OBSERVED,
            host: to.host,
            port: to.port,
        };
        let mut address = [0u8; 19];
        let address_len = write_address(&observed, &mut address);
        let end = MOMENT_LEN + address_len;
        let mut bytes = [0u8; 43];
        bytes[..MOMENT_LEN].copy_from_slice(&moment.to_be_bytes());
        bytes[MOMENT_LEN..end].copy_from_slice(&address[..address_len]);
        let tag = self.secret.hmac(&bytes[..end]);
        bytes[end..end + TAG_LEN].copy_from_slice(&tag[..TAG_LEN]);
        Cookie {
            bytes,
            len: end + TAG_LEN,
        }
    }

    /// Tests bytes that came from an address at a moment in milliseconds.
    pub fn test(&self, bytes: &[u8], from: &Address, moment: u64) -> CookieTest
        ensures right { IsAnswer self.now bytes.now from.now moment result }
        ensures exact { result ≡ cookie_test self.now bytes.now from.now moment }
    {
        answer(self.read(bytes), from, moment)
    }

    // The address and the moment of issue of bytes that are a cookie of this maker.
    fn read(&self, bytes: &[u8]) -> Option<(Address, u64)>
        ensures { result ≡ cookie_read self.now bytes.now }
    {
        if bytes.len() < MOMENT_LEN {
            return None;
        }
        let read = read_address(&bytes[MOMENT_LEN..]);
        self.found(bytes, read)
    }

    // Bytes are a cookie where they are the one for the address and the moment that stand in them.
    fn found(
        &self,
        bytes: &[u8],
        read: Result<(Address, usize), FormFault>,
    ) -> Option<(Address, u64)>
        requires { 8 ≤ length bytes.now }
        ensures { result ≡ cookie_found self.now bytes.now read }
    {
        let Ok((address, _)) = read else {
            return None;
        };
        let issued = moment_of(bytes);
        let made = self.make(&address, issued);
        if same_bytes(made.bytes(), bytes) {
            Some((address, issued))
        } else {
            None
        }
    }
}

// What a test says of what was read.
fn answer(found: Option<(Address, u64)>, from: &Address, moment: u64) -> CookieTest
    ensures { result ≡ test_of found from.now moment }
{
    match found {
        Some((address, issued)) => good_cookie_test(&address, issued, from, moment),
        None => CookieTest::Bad,
    }
}

// What it says of a cookie for an address that was issued at a moment.
fn good_cookie_test(address: &Address, issued: u64, from: &Address, moment: u64) -> CookieTest
    ensures { result ≡ good_cookie_test address.now issued from.now moment }
{
    if !address.same_place(from) {
        CookieTest::Moved
    } else if moment.saturating_sub(issued) > LIFETIME {
        CookieTest::Expired
    } else {
        CookieTest::Current
    }
}

// The moment that bytes begin with.
fn moment_of(bytes: &[u8]) -> u64
    requires { 8 ≤ length bytes.now }
    ensures { result ≡ moment_of bytes.now }
{
    let mut first = [0u8; MOMENT_LEN];
    first.copy_from_slice(&bytes[..MOMENT_LEN]);
    u64::from_be_bytes(first)
}
