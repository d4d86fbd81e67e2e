//! Laws on nodes, for the crates above.
ghost use Rattle.std.specs.Prelude.{◌≡◌, ◌<◌, ◌≤◌, ◌∷◌, [], ℕ, Bool, IfSome, IsTrue, List, Some, length};
ghost use Rattle.std.specs.List.{All};
ghost use Rattle.page_layout.specs.declared.mv_node.MvEntry.{MvEntry};
ghost use Rattle.mv_pages.specs.Alive.{AreEntriesOf, IsChangeable, alive_count, next_entry, path_child, path_entry};
ghost use Rattle.mv_pages.specs.Lows.{alive_lows, ascend, greater_low, lesser_low, low_above, low_at, low_of, with_low};

/// Proves that entries that may be changed at a version may be changed at a later one, and that the same
/// are alive there; it does nothing when it runs.
pub fn later_laws()
    ensures changeable { (version later : ℕ) (entries : List MvEntry) → version ≤ later → later < 4294967295 → IsChangeable version entries → IsChangeable later entries }
    ensures alive { (version later low : ℕ) (entries : List MvEntry) → version ≤ later → IsChangeable version entries → alive_count entries later low ≡ alive_count entries version low }
    ensures lows { (version later : ℕ) (entries : List MvEntry) → version ≤ later → IsChangeable version entries → alive_lows entries later ≡ alive_lows entries version }
{}

/// Proves what the lows that are alive are, and what a low that is put in changes; it does nothing when
/// it runs.
pub fn low_laws()
    // The lows of a node that may be changed ascend.
    ensures alive { (level version : ℕ) (entries : List MvEntry) → AreEntriesOf level entries → IsChangeable version entries → IsTrue (ascend (alive_lows entries version)) }
    ensures ascending { (low : ℕ) (lows : List ℕ) → IsTrue (ascend lows) → IsTrue (ascend (with_low low lows)) }
    // What holds of the low and of each other one holds of each.
    ensures each { (test : ℕ → Bool) (low : ℕ) (lows : List ℕ) → IsTrue (test low) → All (λ l. IsTrue (test l)) lows → All (λ l. IsTrue (test l)) (with_low low lows) }
    // The first one stays where it is at or below the low.
    ensures first { (low first : ℕ) (lows : List ℕ) → first ≤ low → (rest : List ℕ) × (with_low low (first ∷ lows) ≡ first ∷ rest) }
    // The lows around a key are those of before and the one that is put in, whichever is nearer.
    ensures at { (low key : ℕ) (lows : List ℕ) → IsTrue (ascend lows) → low_at (with_low low lows) key ≡ greater_low (low_at (low ∷ []) key) (low_at lows key) }
    ensures above { (low key : ℕ) (lows : List ℕ) → low_above (with_low low lows) key ≡ lesser_low (low_above (low ∷ []) key) (low_above lows key) }
    ensures fewer { (low : ℕ) (lows : List ℕ) → length lows ≤ length (with_low low lows) }
{}

/// Proves that the lows that are alive tell where a path goes, and into which intervals they cut the keys;
/// it does nothing when it runs.
pub fn path_laws()
    // The path's entry begins at the last alive low at or below the key, and the next one at the first above it.
    ensures low { (entries : List MvEntry) (key version : ℕ) → low_of (path_entry entries key version) ≡ low_at (alive_lows entries version) key }
    ensures next { (entries : List MvEntry) (key version : ℕ) → low_of (next_entry entries key version) ≡ low_above (alive_lows entries version) key }
    // Keys of the same low lead to the same child.
    ensures same { (entries : List MvEntry) (key other version : ℕ) → low_at (alive_lows entries version) key ≡ low_at (alive_lows entries version) other
        → path_child entries key version ≡ path_child entries other version }
    // A key is at or above its low and below the next one, and each key from it to there has its low.
    ensures from { (lows : List ℕ) (key low : ℕ) → low_at lows key ≡ Some low → low ≤ key }
    ensures before { (lows : List ℕ) (key next : ℕ) → low_above lows key ≡ Some next → key < next }
    ensures between { (lows : List ℕ) (key other : ℕ) → IsTrue (ascend lows) → key ≤ other → IfSome (low_above lows key) (λ next. other < next) → low_at lows other ≡ low_at lows key }
{}
