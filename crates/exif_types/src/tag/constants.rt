//! The tags of the standard by name (TIFF 6.0; Exif 2.32, section 4.6).

use super::{Context, Tag};

#[allow(non_upper_case_globals)]
impl Tag {
    /// Image width.
    pub const ImageWidth: Tag = Tag(Context::Tiff, 0x0100);
    /// Image height.
    pub const ImageLength: Tag = Tag(Context::Tiff, 0x0101);
    /// Number of bits per component.
    pub const BitsPerSample: Tag = Tag(Context::Tiff, 0x0102);
    /// Compression scheme.
    pub const Compression: Tag = Tag(Context::Tiff, 0x0103);
    /// Pixel composition.
    pub const PhotometricInterpretation: Tag = Tag(Context::Tiff, 0x0106);
    /// Image title.
    pub const ImageDescription: Tag = Tag(Context::Tiff, 0x010e);
    /// Manufacturer of image input equipment.
    pub const Make: Tag = Tag(Context::Tiff, 0x010f);
    /// Model of image input equipment.
    pub const Model: Tag = Tag(Context::Tiff, 0x0110);
    /// Image data location.
    pub const StripOffsets: Tag = Tag(Context::Tiff, 0x0111);
    /// Orientation of image.
    pub const Orientation: Tag = Tag(Context::Tiff, 0x0112);
    /// Number of components.
    pub const SamplesPerPixel: Tag = Tag(Context::Tiff, 0x0115);
    /// Number of rows per strip.
    pub const RowsPerStrip: Tag = Tag(Context::Tiff, 0x0116);
    /// Bytes per compressed strip.
    pub const StripByteCounts: Tag = Tag(Context::Tiff, 0x0117);
    /// Image resolution in width direction.
    pub const XResolution: Tag = Tag(Context::Tiff, 0x011a);
    /// Image resolution in height direction.
    pub const YResolution: Tag = Tag(Context::Tiff, 0x011b);
    /// Image data arrangement.
    pub const PlanarConfiguration: Tag = Tag(Context::Tiff, 0x011c);
    /// Unit of X and Y resolution.
    pub const ResolutionUnit: Tag = Tag(Context::Tiff, 0x0128);
    /// Transfer function.
    pub const TransferFunction: Tag = Tag(Context::Tiff, 0x012d);
    /// Software used.
    pub const Software: Tag = Tag(Context::Tiff, 0x0131);
    /// File change date and time.
    pub const DateTime: Tag = Tag(Context::Tiff, 0x0132);
    /// Person who created the image.
    pub const Artist: Tag = Tag(Context::Tiff, 0x013b);
    /// White point chromaticity.
    pub const WhitePoint: Tag = Tag(Context::Tiff, 0x013e);
    /// Chromaticities of primaries.
    pub const PrimaryChromaticities: Tag = Tag(Context::Tiff, 0x013f);
    /// Tiled image data location.
    pub const TileOffsets: Tag = Tag(Context::Tiff, 0x0144);
    /// Bytes per compressed tile.
    pub const TileByteCounts: Tag = Tag(Context::Tiff, 0x0145);
    /// Offset to JPEG SOI.
    pub const JPEGInterchangeFormat: Tag = Tag(Context::Tiff, 0x0201);
    /// Bytes of JPEG data.
    pub const JPEGInterchangeFormatLength: Tag = Tag(Context::Tiff, 0x0202);
    /// Color space transformation matrix coefficients.
    pub const YCbCrCoefficients: Tag = Tag(Context::Tiff, 0x0211);
    /// Subsampling ratio of Y to C.
    pub const YCbCrSubSampling: Tag = Tag(Context::Tiff, 0x0212);
    /// Y and C positioning.
    pub const YCbCrPositioning: Tag = Tag(Context::Tiff, 0x0213);
    /// Pair of black and white reference values.
    pub const ReferenceBlackWhite: Tag = Tag(Context::Tiff, 0x0214);
    /// Copyright holder.
    pub const Copyright: Tag = Tag(Context::Tiff, 0x8298);
    /// Exif IFD pointer.
    pub const ExifIFDPointer: Tag = Tag(Context::Tiff, 0x8769);
    /// GPS Info IFD pointer.
    pub const GPSInfoIFDPointer: Tag = Tag(Context::Tiff, 0x8825);
    /// Exposure time.
    pub const ExposureTime: Tag = Tag(Context::Exif, 0x829a);
    /// F number.
    pub const FNumber: Tag = Tag(Context::Exif, 0x829d);
    /// Exposure program.
    pub const ExposureProgram: Tag = Tag(Context::Exif, 0x8822);
    /// Spectral sensitivity.
    pub const SpectralSensitivity: Tag = Tag(Context::Exif, 0x8824);
    /// Photographic sensitivity.
    pub const PhotographicSensitivity: Tag = Tag(Context::Exif, 0x8827);
    /// Optoelectric conversion factor.
    pub const OECF: Tag = Tag(Context::Exif, 0x8828);
    /// Sensitivity type.
    pub const SensitivityType: Tag = Tag(Context::Exif, 0x8830);
    /// Standard output sensitivity.
    pub const StandardOutputSensitivity: Tag = Tag(Context::Exif, 0x8831);
    /// Recommended exposure index.
    pub const RecommendedExposureIndex: Tag = Tag(Context::Exif, 0x8832);
    /// ISO speed.
    pub const ISOSpeed: Tag = Tag(Context::Exif, 0x8833);
    /// ISO speed latitude yyy.
    pub const ISOSpeedLatitudeyyy: Tag = Tag(Context::Exif, 0x8834);
    /// ISO speed latitude zzz.
    pub const ISOSpeedLatitudezzz: Tag = Tag(Context::Exif, 0x8835);
    /// Exif version.
    pub const ExifVersion: Tag = Tag(Context::Exif, 0x9000);
    /// Date and time of original data generation.
    pub const DateTimeOriginal: Tag = Tag(Context::Exif, 0x9003);
    /// Date and time of digital data generation.
    pub const DateTimeDigitized: Tag = Tag(Context::Exif, 0x9004);
    /// Offset data of DateTime.
    pub const OffsetTime: Tag = Tag(Context::Exif, 0x9010);
    /// Offset data of DateTimeOriginal.
    pub const OffsetTimeOriginal: Tag = Tag(Context::Exif, 0x9011);
    /// Offset data of DateTimeDigitized.
    pub const OffsetTimeDigitized: Tag = Tag(Context::Exif, 0x9012);
    /// Meaning of each component.
    pub const ComponentsConfiguration: Tag = Tag(Context::Exif, 0x9101);
    /// Image compression mode.
    pub const CompressedBitsPerPixel: Tag = Tag(Context::Exif, 0x9102);
    /// Shutter speed.
    pub const ShutterSpeedValue: Tag = Tag(Context::Exif, 0x9201);
    /// Aperture.
    pub const ApertureValue: Tag = Tag(Context::Exif, 0x9202);
    /// Brightness.
    pub const BrightnessValue: Tag = Tag(Context::Exif, 0x9203);
    /// Exposure bias.
    pub const ExposureBiasValue: Tag = Tag(Context::Exif, 0x9204);
    /// Maximum lens aperture.
    pub const MaxApertureValue: Tag = Tag(Context::Exif, 0x9205);
    /// Subject distance.
    pub const SubjectDistance: Tag = Tag(Context::Exif, 0x9206);
    /// Metering mode.
    pub const MeteringMode: Tag = Tag(Context::Exif, 0x9207);
    /// Light source.
    pub const LightSource: Tag = Tag(Context::Exif, 0x9208);
    /// Flash.
    pub const Flash: Tag = Tag(Context::Exif, 0x9209);
    /// Lens focal length.
    pub const FocalLength: Tag = Tag(Context::Exif, 0x920a);
    /// Subject area.
    pub const SubjectArea: Tag = Tag(Context::Exif, 0x9214);
    /// Manufacturer notes.
    pub const MakerNote: Tag = Tag(Context::Exif, 0x927c);
    /// User comments.
    pub const UserComment: Tag = Tag(Context::Exif, 0x9286);
    /// DateTime subseconds.
    pub const SubSecTime: Tag = Tag(Context::Exif, 0x9290);
    /// DateTimeOriginal subseconds.
    pub const SubSecTimeOriginal: Tag = Tag(Context::Exif, 0x9291);
    /// DateTimeDigitized subseconds.
    pub const SubSecTimeDigitized: Tag = Tag(Context::Exif, 0x9292);
    /// Temperature.
    pub const Temperature: Tag = Tag(Context::Exif, 0x9400);
    /// Humidity.
    pub const Humidity: Tag = Tag(Context::Exif, 0x9401);
    /// Pressure.
    pub const Pressure: Tag = Tag(Context::Exif, 0x9402);
    /// Water depth.
    pub const WaterDepth: Tag = Tag(Context::Exif, 0x9403);
    /// Acceleration.
    pub const Acceleration: Tag = Tag(Context::Exif, 0x9404);
    /// Camera elevation angle.
    pub const CameraElevationAngle: Tag = Tag(Context::Exif, 0x9405);
    /// Supported Flashpix version.
    pub const FlashpixVersion: Tag = Tag(Context::Exif, 0xa000);
    /// Color space information.
    pub const ColorSpace: Tag = Tag(Context::Exif, 0xa001);
    /// Valid image width.
    pub const PixelXDimension: Tag = Tag(Context::Exif, 0xa002);
    /// Valid image height.
    pub const PixelYDimension: Tag = Tag(Context::Exif, 0xa003);
    /// Related audio file.
    pub const RelatedSoundFile: Tag = Tag(Context::Exif, 0xa004);
    /// Interoperability IFD pointer.
    pub const InteropIFDPointer: Tag = Tag(Context::Exif, 0xa005);
    /// Flash energy.
    pub const FlashEnergy: Tag = Tag(Context::Exif, 0xa20b);
    /// Spatial frequency response.
    pub const SpatialFrequencyResponse: Tag = Tag(Context::Exif, 0xa20c);
    /// Focal plane X resolution.
    pub const FocalPlaneXResolution: Tag = Tag(Context::Exif, 0xa20e);
    /// Focal plane Y resolution.
    pub const FocalPlaneYResolution: Tag = Tag(Context::Exif, 0xa20f);
    /// Focal plane resolution unit.
    pub const FocalPlaneResolutionUnit: Tag = Tag(Context::Exif, 0xa210);
    /// Subject location.
    pub const SubjectLocation: Tag = Tag(Context::Exif, 0xa214);
    /// Exposure index.
    pub const ExposureIndex: Tag = Tag(Context::Exif, 0xa215);
    /// Sensing method.
    pub const SensingMethod: Tag = Tag(Context::Exif, 0xa217);
    /// File source.
    pub const FileSource: Tag = Tag(Context::Exif, 0xa300);
    /// Scene type.
    pub const SceneType: Tag = Tag(Context::Exif, 0xa301);
    /// CFA pattern.
    pub const CFAPattern: Tag = Tag(Context::Exif, 0xa302);
    /// Custom image processing.
    pub const CustomRendered: Tag = Tag(Context::Exif, 0xa401);
    /// Exposure mode.
    pub const ExposureMode: Tag = Tag(Context::Exif, 0xa402);
    /// White balance.
    pub const WhiteBalance: Tag = Tag(Context::Exif, 0xa403);
    /// Digital zoom ratio.
    pub const DigitalZoomRatio: Tag = Tag(Context::Exif, 0xa404);
    /// Focal length in 35 mm film.
    pub const FocalLengthIn35mmFilm: Tag = Tag(Context::Exif, 0xa405);
    /// Scene capture type.
    pub const SceneCaptureType: Tag = Tag(Context::Exif, 0xa406);
    /// Gain control.
    pub const GainControl: Tag = Tag(Context::Exif, 0xa407);
    /// Contrast.
    pub const Contrast: Tag = Tag(Context::Exif, 0xa408);
    /// Saturation.
    pub const Saturation: Tag = Tag(Context::Exif, 0xa409);
    /// Sharpness.
    pub const Sharpness: Tag = Tag(Context::Exif, 0xa40a);
    /// Device settings description.
    pub const DeviceSettingDescription: Tag = Tag(Context::Exif, 0xa40b);
    /// Subject distance range.
    pub const SubjectDistanceRange: Tag = Tag(Context::Exif, 0xa40c);
    /// Unique image ID.
    pub const ImageUniqueID: Tag = Tag(Context::Exif, 0xa420);
    /// Camera owner name.
    pub const CameraOwnerName: Tag = Tag(Context::Exif, 0xa430);
    /// Body serial number.
    pub const BodySerialNumber: Tag = Tag(Context::Exif, 0xa431);
    /// Lens specification.
    pub const LensSpecification: Tag = Tag(Context::Exif, 0xa432);
    /// Lens make.
    pub const LensMake: Tag = Tag(Context::Exif, 0xa433);
    /// Lens model.
    pub const LensModel: Tag = Tag(Context::Exif, 0xa434);
    /// Lens serial number.
    pub const LensSerialNumber: Tag = Tag(Context::Exif, 0xa435);
    /// Composite image.
    pub const CompositeImage: Tag = Tag(Context::Exif, 0xa460);
    /// Source image number of composite image.
    pub const SourceImageNumberOfCompositeImage: Tag = Tag(Context::Exif, 0xa461);
    /// Source exposure times of composite image.
    pub const SourceExposureTimesOfCompositeImage: Tag = Tag(Context::Exif, 0xa462);
    /// Gamma.
    pub const Gamma: Tag = Tag(Context::Exif, 0xa500);
    /// GPS tag version.
    pub const GPSVersionID: Tag = Tag(Context::Gps, 0x0000);
    /// North or south latitude.
    pub const GPSLatitudeRef: Tag = Tag(Context::Gps, 0x0001);
    /// Latitude.
    pub const GPSLatitude: Tag = Tag(Context::Gps, 0x0002);
    /// East or West Longitude.
    pub const GPSLongitudeRef: Tag = Tag(Context::Gps, 0x0003);
    /// Longitude.
    pub const GPSLongitude: Tag = Tag(Context::Gps, 0x0004);
    /// Altitude reference.
    pub const GPSAltitudeRef: Tag = Tag(Context::Gps, 0x0005);
    /// Altitude.
    pub const GPSAltitude: Tag = Tag(Context::Gps, 0x0006);
    /// GPS time (atomic clock).
    pub const GPSTimeStamp: Tag = Tag(Context::Gps, 0x0007);
    /// GPS satellites used for measurement.
    pub const GPSSatellites: Tag = Tag(Context::Gps, 0x0008);
    /// GPS receiver status.
    pub const GPSStatus: Tag = Tag(Context::Gps, 0x0009);
    /// GPS measurement mode.
    pub const GPSMeasureMode: Tag = Tag(Context::Gps, 0x000a);
    /// Measurement precision.
    pub const GPSDOP: Tag = Tag(Context::Gps, 0x000b);
    /// Speed unit.
    pub const GPSSpeedRef: Tag = Tag(Context::Gps, 0x000c);
    /// Speed of GPS receiver.
    pub const GPSSpeed: Tag = Tag(Context::Gps, 0x000d);
    /// Reference for direction of movement.
    pub const GPSTrackRef: Tag = Tag(Context::Gps, 0x000e);
    /// Direction of movement.
    pub const GPSTrack: Tag = Tag(Context::Gps, 0x000f);
    /// Reference for direction of image.
    pub const GPSImgDirectionRef: Tag = Tag(Context::Gps, 0x0010);
    /// Direction of image.
    pub const GPSImgDirection: Tag = Tag(Context::Gps, 0x0011);
    /// Geodetic survey data used.
    pub const GPSMapDatum: Tag = Tag(Context::Gps, 0x0012);
    /// Reference for latitude of destination.
    pub const GPSDestLatitudeRef: Tag = Tag(Context::Gps, 0x0013);
    /// Latitude of destination.
    pub const GPSDestLatitude: Tag = Tag(Context::Gps, 0x0014);
    /// Reference for longitude of destination.
    pub const GPSDestLongitudeRef: Tag = Tag(Context::Gps, 0x0015);
    /// Longitude of destination.
    pub const GPSDestLongitude: Tag = Tag(Context::Gps, 0x0016);
    /// Reference for bearing of destination.
    pub const GPSDestBearingRef: Tag = Tag(Context::Gps, 0x0017);
    /// Bearing of destination.
    pub const GPSDestBearing: Tag = Tag(Context::Gps, 0x0018);
    /// Reference for distance to destination.
    pub const GPSDestDistanceRef: Tag = Tag(Context::Gps, 0x0019);
    /// Distance to destination.
    pub const GPSDestDistance: Tag = Tag(Context::Gps, 0x001a);
    /// Name of GPS processing method.
    pub const GPSProcessingMethod: Tag = Tag(Context::Gps, 0x001b);
    /// Name of GPS area.
    pub const GPSAreaInformation: Tag = Tag(Context::Gps, 0x001c);
    /// GPS date.
    pub const GPSDateStamp: Tag = Tag(Context::Gps, 0x001d);
    /// GPS differential correction.
    pub const GPSDifferential: Tag = Tag(Context::Gps, 0x001e);
    /// Horizontal positioning error.
    pub const GPSHPositioningError: Tag = Tag(Context::Gps, 0x001f);
    /// Interoperability identification.
    pub const InteroperabilityIndex: Tag = Tag(Context::Interop, 0x0001);
    /// Interoperability version.
    pub const InteroperabilityVersion: Tag = Tag(Context::Interop, 0x0002);
    /// Related image file format.
    pub const RelatedImageFileFormat: Tag = Tag(Context::Interop, 0x1000);
    /// Related image width.
    pub const RelatedImageWidth: Tag = Tag(Context::Interop, 0x1001);
    /// Related image height.
    pub const RelatedImageLength: Tag = Tag(Context::Interop, 0x1002);
}
