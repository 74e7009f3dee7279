//! How many files a tenant has, and how many bytes, with the limits of both.
ghost use Rattle.std.specs.Prelude.{◌≡◌, ◌≤◌, false, IfSome, unwrap_or};
ghost use Rattle.mk_files.specs.Limits.{files_with, bytes_with, exceeds_limits, IsOverWith};

/// The most files that a tenant may have.
pub const MOST_FILES: usize = 2000;

/// The most bytes that the contents of a tenant's files may have together.
pub const MOST_BYTES: usize = 8_388_608;

/// How many files a tenant has, and how many bytes their contents have together.
#[derive(Clone, Copy, Debug, PartialEq, Eq)]
pub struct Usage {
    pub files: u32,
    pub bytes: u32,
}

impl Usage {
    /// How many files and bytes a tenant has once a file of this length in bytes is stored in place of one of
    /// the old length, or of none. It is `None` if that is more than a tenant may have.
    pub fn with(self, old: Option<usize>, length: usize) -> Option<Usage>
        requires { unwrap_or old 0 ≤ self.bytes }
        ensures files { IfSome result (λ usage. usage.files ≡ files_with self.files old) }
        ensures bytes { IfSome result (λ usage. usage.bytes ≡ bytes_with self.bytes old length) }
        ensures fits { IfSome result (λ usage. exceeds_limits usage.files usage.bytes ≡ false) }
        ensures over { IsOverWith result self old length }
    {
        if length > MOST_BYTES {
            return None;
        }
        let (files, left) = match old {
            Some(old) => (self.files as usize, self.bytes as usize - old),
            None => (self.files as usize + 1, self.bytes as usize),
        };
        if files > MOST_FILES || left + length > MOST_BYTES {
            return None;
        }
        Some(Usage {
            files: files as u32,
            bytes: (left + length) as u32,
        })
    }
}
