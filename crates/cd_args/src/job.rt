//! The jobs of cdpatch: each is a command with its arguments.

ghost use Rattle.std.specs.Prelude.{◌≡◌};
ghost use Rattle.cd_args.specs.Options.{settings_in};

use crate::settings::Settings;

/// A command with its arguments. `image`, `script` and `out` are the names of files; the image `-`
/// is the standard input. The first sector of the image has the block number `base`. With `carry`,
/// patches on damaged sectors are accepted too, and the damage stays.
#[derive(Debug, Drop)]
pub enum Job {
    /// Lists the sectors of an image.
    List {
        image: String,
        base: u32,
    },
    /// Reports what is wrong with the sectors of an image.
    Audit {
        image: String,
        base: u32,
    },
    /// Reports what each patch of a script would do to an image, and writes no image.
    Check {
        image: String,
        script: String,
        base: u32,
        carry: bool,
    },
    /// Applies a script to an image, and writes the patched image to a new file.
    Apply {
        image: String,
        script: String,
        out: String,
        base: u32,
        carry: bool,
    },
}

impl Job {
    /// The settings of the job. `list` and `audit` have only a base, and `carry` is false for them.
    ///
    /// # Examples
    ///
    /// ```
    /// let job = job_of(rt.alloc(), Vec::new(rt.alloc()))?; // no arguments
    /// assert_eq!(rt; (job.settings().base, job.settings().carry), (0, false));
    /// ```
    pub fn settings(&self) -> Settings
        ensures { result ≡ settings_in self.now }
    {
        match self {
            Job::List { base, .. } | Job::Audit { base, .. } => Settings::new(*base, false),
            Job::Check { base, carry, .. } | Job::Apply { base, carry, .. } => Settings {
                base: *base,
                carry: *carry,
            },
        }
    }
}
