ghost use Rattle.std.specs.Prelude.{◌≡◌, ◌≤◌, ◌<◌, ◌+◌, ℕ, List, true, length, take, drop};
ghost use Rattle.xc_data.specs.declared.object.Num.{Num};
ghost use Rattle.xc_host.specs.Contents.{Contents, file_in, has_file, wrote, wrote_front};

/// A write after a front that was written makes a longer front.
pub fn a_front_grows()
    ensures { (c : Contents) (file : Num) (at done more : ℕ) (bytes : List ℕ) → 0 < more → done + more ≤ length bytes
        → at + length bytes ≤ length (file_in c file)
        → wrote (wrote_front c file at (take done bytes)) file (at + done) (take more (drop done bytes))
        ≡ wrote_front c file at (take (done + more) bytes) }
{}

/// A write inside a file leaves the file there, at its length.
pub fn a_write_keeps_the_length()
    ensures { (c : Contents) (file : Num) (at : ℕ) (bytes : List ℕ) → has_file c file ≡ true → at + length bytes ≤ length (file_in c file)
        → (has_file (wrote c file at bytes) file ≡ true) × (length (file_in (wrote c file at bytes) file) ≡ length (file_in c file)) }
{}
