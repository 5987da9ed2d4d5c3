// Which files are listings of apps' roots.
ghost use Rattle.std.specs.Prelude.{◌≡◌, ℕ, List, true, false};
ghost use Rattle.dir_rules.specs.Marks.{has_slash};
ghost use Rattle.demo_tally.specs.TreeFiles.{tree_file, is_tree_file};

/// The files that are told for listings are those of apps, whose names have no slash.
pub fn tree_files()
    ensures of_an_app { (path : List ℕ) → is_tree_file path ≡ true → (app : List ℕ) × (has_slash app ≡ false) × (path ≡ tree_file app) }
    ensures of_each { (app : List ℕ) → has_slash app ≡ false → is_tree_file (tree_file app) ≡ true }
{}
