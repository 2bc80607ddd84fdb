//! The metadata that exiftool 12.57 wrote into a movie box: a location and a title, with their
//! keys.

use crate::{Reason, Request, scrub};
use std::test::Fail;

// The movie box up to the items, which begins the video.
const KEYS: &[u8] = b"\0\0\0\xdbmoov\0\0\0\xd3meta\0\0\0 hdlr\0\0\0\0\0\0\0\0mdta\
\0\0\0\0\0\0\0\0\0\0\0\0\0\0\0]keys\0\0\0\0\0\0\0\x02\0\0\0,\
mdtacom.apple.quicktime.location.ISO6709\
\0\0\0!mdtacom.apple.quicktime.title\0\0\0Nilst";

const LOCATION: &[u8] = b"\0\0\0*\0\0\0\x01\0\0\0\x22data\0\0\0\x01\0\0\0\0+35.6895+139.6917/";

const FREE: &[u8] =
    b"\0\0\0*free\0\0\0\0\0\0\0\0\0\0\0\0\0\0\0\0\0\0\0\0\0\0\0\0\0\0\0\0\0\0\0\0\0\0";

const TITLE: &[u8] = b"\0\0\0\x1c\0\0\0\x02\0\0\0\x14data\0\0\0\x01\0\0\0\0Rain";

#[test]
fn location_of_exiftool(rt: HostRuntime) -> Result<(), Fail> {
    let mut file = Vec::from_slice(rt.alloc(), KEYS)?;
    file.extend_from_slice(LOCATION)?;
    file.extend_from_slice(TITLE)?;
    let Ok(remaining) = scrub(rt.alloc(), Request::Locations, file.as_mut_slice())? else {
        assert!(rt; false);
        return Ok(());
    };
    let mut wanted = Vec::from_slice(rt.alloc(), KEYS)?;
    wanted.extend_from_slice(FREE)?;
    wanted.extend_from_slice(TITLE)?;
    assert_eq!(rt; file.as_slice(), wanted.as_slice());
    assert_eq!(rt; remaining.len(), 1);
    for one in remaining.iter() {
        assert_eq!(rt; one.part.offset, KEYS.len() + FREE.len());
        assert_eq!(rt; one.reason, Reason::Text);
    }
    Ok(())
}
