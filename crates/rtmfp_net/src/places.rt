//! Places, and the addresses by which the machine's sockets name them.
ghost use Rattle.rtmfp_net.specs.Places.{IsPlaceOf, IsSocketOf, Names};

use rtmfp_forms::Address;
use std::net::{IpAddr, Ipv4Addr, Ipv6Addr, SocketAddr};

/// The address by which a socket names a place. A socket of IPv6 names an IPv4 host as
/// `::ffff:a.b.c.d`.
pub(crate) fn socket_addr(is_v6: bool, place: &Address) -> SocketAddr
    ensures { IsSocketOf is_v6 place.now result }
{
    SocketAddr::new(ip_addr(is_v6, place), place.port)
}

fn ip_addr(is_v6: bool, place: &Address) -> IpAddr
    ensures { Names is_v6 place.now.v6 place.now.host result }
{
    if place.v6 {
        return IpAddr::V6(Ipv6Addr::from_octets(place.host));
    }
    let [a, b, c, d, ..] = place.host;
    let ip = Ipv4Addr::new(a, b, c, d);
    if is_v6 {
        IpAddr::V6(ip.to_ipv6_mapped())
    } else {
        IpAddr::V4(ip)
    }
}

/// The place that a socket's address is told as. An IPv4 host is one of IPv4, whichever socket
/// names it.
pub(crate) fn place_of(addr: SocketAddr) -> Address
    ensures { IsPlaceOf addr result }
{
    match addr.ip().to_canonical() {
        IpAddr::V4(ip) => Address::v4(ip.octets(), addr.port()),
        IpAddr::V6(ip) => Address {
            v6: true,
            origin: 0,
            host: ip.octets(),
            port: addr.port(),
        },
    }
}
