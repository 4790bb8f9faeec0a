//! From where to where names are seen.

/// The tokens of a pattern, from `from` up to `to`, and where the names that it binds are seen behind it: from `seen_from` up
/// to `seen_to`, and from `before_from` up to `before_to`, which is what a comprehension or a tabulation has before its bar.
/// In the pattern itself each name is seen behind the place where it is bound.
#[derive(Clone, Copy, Debug)]
pub struct Scope {
    pub from: u64,
    pub to: u64,
    pub seen_from: u64,
    pub seen_to: u64,
    pub before_from: u64,
    pub before_to: u64,
}

// What has not come yet.
const OPEN: u64 = u64::MAX;

impl Scope {
    /// A pattern of these tokens whose names are not seen yet.
    pub(crate) fn new(from: u64, to: u64) -> Scope {
        Scope {
            from,
            to,
            seen_from: OPEN,
            seen_to: OPEN,
            before_from: OPEN,
            before_to: OPEN,
        }
    }

    /// Whether a name that is bound at one token is seen at another.
    pub fn is_seen(&self, bound: u64, at: u64) -> bool {
        if bound < self.from || bound >= self.to {
            return false;
        }
        let is_within = at > bound && at < self.to;
        let is_behind = at >= self.seen_from && at < self.seen_to;
        let is_before = at >= self.before_from && at < self.before_to;
        is_within || is_behind || is_before
    }
}

/// The names of the last pattern whose names are not seen yet are seen from a token on.
pub(crate) fn begin_scope(scopes: &mut Vec<Scope>, at: u64) {
    for k in (0..scopes.len()).rev() {
        if let Some(scope) = scopes.get_mut(k) {
            if scope.seen_from == OPEN {
                scope.seen_from = at;
                return;
            }
        }
    }
}

/// The names of all patterns from `first` on that are still seen are seen up to a token, and from `outer` up to `first`.
pub(crate) fn end_scopes(scopes: &mut Vec<Scope>, first: u64, at: u64, outer: u64) {
    for k in (0..scopes.len()).rev() {
        if let Some(scope) = scopes.get_mut(k) {
            if scope.from < first {
                return;
            }
            if scope.seen_to == OPEN {
                scope.seen_from = scope.seen_from.min(at);
                scope.seen_to = at;
                scope.before_from = outer;
                scope.before_to = first;
            }
        }
    }
}
