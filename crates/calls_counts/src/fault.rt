//! Why a history has no linearization.
use calls_core::Call;

/// A completed read or await that shows, by counting, that there is no linearization.
#[derive(Clone, Copy, Debug, PartialEq, Eq)]
pub enum Fault {
    /// An await that returned a number below its threshold, or one of 0 that gave up.
    Below(Call),
    /// It says that the count reached more than the advances that were invoked before its response
    /// can make.
    Few(Call),
    /// It says that the count was less than the advances make that returned before its invocation.
    Many(Call),
    /// The first call follows the second one in real time. It says that the count was less than
    /// the second one says, plus the advances between the two.
    Since(Call, Call),
}
