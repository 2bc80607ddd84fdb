//! What the parts of a video hold.

/// A box that contains others, or the file itself.
#[derive(Clone, Copy, Debug, PartialEq, Eq)]
pub enum Container {
    /// The file.
    File,
    /// The movie box (`moov`): the whole presentation.
    Movie,
    /// A track (`trak`).
    Track,
    /// The media of a track (`mdia`).
    Media,
    /// The information on the media of a track (`minf`).
    MediaInformation,
    /// The sample table of a track (`stbl`).
    SampleTable,
    /// User data (`udta`).
    UserData,
    /// Metadata (`meta`).
    Meta,
    /// The items of metadata (`ilst`).
    ItemList,
    /// A movie fragment (`moof`), or a track fragment (`traf`).
    Fragment,
}

/// What user data or a metadata item are about, by type or key.
#[derive(Clone, Copy, Debug, PartialEq, Eq)]
pub enum Subject {
    /// A location, or maybe one: also a key that is missing or too long to be read.
    Location,
    /// A date.
    Date,
    /// The make of the camera.
    Make,
    /// The model of the camera.
    Model,
    /// A program.
    Software,
    /// Anything else.
    Other,
}

/// What a part of a video holds.
#[derive(Clone, Copy, Debug, PartialEq, Eq)]
pub enum Kind {
    /// The header of a box whose content follows as parts of their own.
    Header(Container),
    /// A whole box that contains others, more than six levels deep: it was not opened.
    Unopened(Container),
    /// A box that states how the video is stored or played, but none of those below.
    Structure,
    /// The movie header (`mvhd`), with its dates.
    MovieHeader,
    /// A track header (`tkhd`), with its dates.
    TrackHeader,
    /// A media header (`mdhd`), with its dates.
    MediaHeader,
    /// The handler (`hdlr`) of a track with video, sound, time codes, hints or captions.
    Handler,
    /// The handler of any other track: its samples are texts or data, and may hold locations.
    TimedHandler,
    /// Which chunks hold which samples (`stsc`).
    SampleChunks,
    /// The sizes of samples (`stsz`).
    SampleSizes,
    /// The offsets of chunks (`stco`).
    ChunkOffsets,
    /// The offsets of chunks in eight bytes each (`co64`).
    LongChunkOffsets,
    /// The samples of all tracks (`mdat`).
    MediaData,
    /// Free space of zeros, or zeros after the last box of a box.
    Free,
    /// The keys of metadata items (`keys`).
    Keys,
    /// A box of user data whose type is known.
    UserData(Subject),
    /// A metadata item.
    Item(Subject),
    /// An XMP packet.
    Xmp,
    /// Another XML document (`xml `, `bxml`).
    Xml,
    /// What a camera recorded in a form of its maker: it may hold locations.
    Telemetry,
    /// Free space that is not all zeros.
    FilledFree,
    /// A box of an unknown type. The video plays without it.
    Unknown,
    /// A box of an unknown type among those that players need.
    UnknownInner,
    /// Bytes that are no whole box, to the end of the box that they are in, or of the file.
    Broken,
}
