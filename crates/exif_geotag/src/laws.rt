//! What the location at a time promises. The laws speak of its definition alone, and hold for all
//! tracks.

ghost use Rattle.std.specs.Prelude.{◌≡◌, ◌+◌, ◌-◌, ◌<◌, ◌≤◌, ℕ, List, length, Some, None};
ghost use Rattle.std.specs.List.{slice_index_or};
ghost use Rattle.exif_geotag.specs.Between.{fix_at, fix_of, interpolated};
ghost use Rattle.exif_geotag.specs.Sorting.{AreInOrder};
ghost use Rattle.exif_geotag.specs.declared.point.Point.{Point};

/// At the time of a point a track is at that point; of points of one time, at the last one.
pub fn a_point_is_on_the_track()
    ensures { (max_gap : ℕ) (points : List Point) (k : ℕ) (d : Point) → AreInOrder points → k < length points
        → (k + 1 < length points
        → (slice_index_or points k d).time < (slice_index_or points (k + 1) d).time)
        → fix_at max_gap (slice_index_or points k d).time points
        ≡ Some (fix_of (slice_index_or points k d)) }
{}

/// Before all of its points a track is nowhere, and behind all of them too.
pub fn a_track_is_nowhere_else()
    ensures before { (max_gap : ℕ) (points : List Point) (time : ℕ)
        → ((k : ℕ) (d : Point) → k < length points → time < (slice_index_or points k d).time)
        → fix_at max_gap time points ≡ None }
    ensures behind { (max_gap : ℕ) (points : List Point) (time : ℕ)
        → ((k : ℕ) (d : Point) → k < length points → (slice_index_or points k d).time < time)
        → fix_at max_gap time points ≡ None }
{}

/// Between two points the latitude is between theirs.
pub fn a_latitude_is_between_two()
    ensures north { (time : ℕ) (from to : Point) → from.time < to.time → time ≤ to.time
        → from.latitude ≤ to.latitude → (from.latitude ≤ (interpolated time from to).latitude)
        × ((interpolated time from to).latitude ≤ to.latitude) }
    ensures south { (time : ℕ) (from to : Point) → from.time < to.time → time ≤ to.time
        → to.latitude ≤ from.latitude → (to.latitude ≤ (interpolated time from to).latitude)
        × ((interpolated time from to).latitude ≤ from.latitude) }
{}
