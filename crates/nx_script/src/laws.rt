//! What holds of scripts themselves, apart from the code that reads them.
ghost use Rattle.std.specs.Prelude.{◌≡◌, ℕ, List, ◌++◌, Some};
ghost use Rattle.nx_pyx.specs.declared.error.PyxError.{PyxError};
ghost use Rattle.nx_pyx.specs.Fault.{fault_of};
ghost use Rattle.nx_script.specs.BeforeDot.{before_dot, shown_before_dot};
ghost use Rattle.nx_script.specs.Law.{HasOneList, HasOneRequestList};

/// Each list of bytes is one list of commands.
pub fn commands()
    ensures { (bytes : List ℕ) → HasOneList bytes }
{}

/// Each list of bytes is one list of requests.
pub fn requests()
    ensures { (bytes : List ℕ) → HasOneRequestList bytes }
{}

/// A fault that the bytes taken so far show before the dot is that of all lines before it, whatever
/// bytes come.
pub fn shown_faults()
    ensures { (taken more : List ℕ) (error : PyxError) → shown_before_dot taken ≡ Some error → fault_of (before_dot (taken ++ more)) ≡ Some error }
{}
