ghost use Rattle.std.specs.Prelude.{◌≡◌, ◌≢◌, IfSome, IsNone};
ghost use Rattle.dpx_base.specs.declared.link.Link.{Link};
ghost use Rattle.dpx_base.specs.Capture.{header_bytes};
ghost use Rattle.dpx_files.specs.Header.{header_in, link_told};

use dpx_base::{Lanes, Link, Rate};

/// The first bytes of a capture over this link.
pub fn header_bytes(link: Link) -> [u8; 8]
    ensures { result ≡ header_bytes link }
{
    let flags = if link.enhanced { 0x01 } else { 0x00 };
    [
        b'D',
        b'P',
        b'X',
        b'1',
        link.lanes.count(),
        link.rate.code(),
        flags,
        0x00,
    ]
}

/// The link that a header with these bytes tells.
fn link_told(bytes: &[u8; 8]) -> Option<Link>
    ensures { result ≡ link_told bytes.now }
{
    Some(Link {
        lanes: Lanes::from_count(bytes[4])?,
        rate: Rate::from_code(bytes[5])?,
        enhanced: bytes[6] == 0x01,
    })
}

/// The link whose captures begin with these bytes, if there is one.
#[tactic(auto, unfolding(crate::specs::Header::header_in))]
pub fn read_header(bytes: &[u8; 8]) -> Option<Link>
    ensures value { result ≡ header_in bytes.now }
    ensures reads { IfSome result (λ link. header_bytes link ≡ bytes.now) }
    ensures none { IsNone result → (link : Link) → header_bytes link ≢ bytes.now }
{
    let link = link_told(bytes)?;
    if header_bytes(link) == *bytes {
        Some(link)
    } else {
        None
    }
}
