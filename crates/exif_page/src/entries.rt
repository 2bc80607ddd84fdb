//! What the page shows of a picture.

/// The thumbnail of a card, or the line that stands where there is none.
#[derive(Clone, Copy)]
pub enum Thumbnail<'a> {
    /// A small picture, as the bytes of a JPEG file.
    Jpeg(&'a [u8]),
    /// A line that says why there is none, as `No thumbnail`.
    Line(&'a str),
}

/// A picture of the page. Texts are shown as they are, escaped for HTML; nothing is read from them.
#[derive(Clone, Copy)]
pub struct Entry<'a> {
    /// The path of its file. What is behind the last `/` is its name on the page.
    pub path: &'a str,
    /// Where a click on it leads: a URL, as [`link_to`](crate::link_to) makes one.
    pub link: Option<&'a str>,
    /// The orientation of Exif by which the thumbnail is turned, as `6`.
    pub orientation: Option<&'a str>,
    /// The day that it was taken, as `2024-05-01`: its section, and what the dates filter.
    pub day: Option<&'a str>,
    /// The time of the day, as `12:30:59`.
    pub time: Option<&'a str>,
    /// The camera, as `Example Pinhole`.
    pub camera: Option<&'a str>,
    /// The exposure, as `1/200 s, f/2.8, ISO 100, 35 mm`.
    pub exposure: Option<&'a str>,
    /// The latitude in decimal degrees, as `47.3769`.
    pub latitude: Option<&'a str>,
    /// The longitude in decimal degrees, as `8.5417`.
    pub longitude: Option<&'a str>,
    /// Its thumbnail.
    pub thumbnail: Thumbnail<'a>,
}
