// What writing to a window leaves.
ghost use Rattle.std.specs.Prelude.{◌≡◌, ℤ, List, length};
ghost use Rattle.cdl_pool.specs.Windows.{Extent, window, overwritten, Fits, LieApart};

/// The law of writes. It does nothing: its contract is the law.
///
/// What is written to a window stands there, each window that lies apart from it keeps its words, and no word is added or lost.
pub fn writes_stay_inside()
    ensures there { (words new : List ℤ) (w : Extent) → Fits words w → length new ≡ w.len → window (overwritten words w new) w ≡ new }
    ensures others { (words new : List ℤ) (w v : Extent) → Fits words w → Fits words v → length new ≡ w.len → LieApart v w
        → window (overwritten words w new) v ≡ window words v }
    ensures size { (words new : List ℤ) (w : Extent) → length (overwritten words w new) ≡ length words }
{}
