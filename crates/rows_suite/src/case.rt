//! A case of the suite.

/// What a line of a file asks, and the answer that is wanted: the second and the fourth of its parts, which tabs set apart.
#[derive(Clone, Copy)]
pub struct Case<'t> {
    /// A request as it is sent, or the list of its pieces.
    pub asked: &'t str,
    /// An answer without its line feed.
    pub wanted: &'t str,
}

impl<'t> Case<'t> {
    /// The case of a line, where it has so many parts.
    pub fn of(line: &'t str) -> Option<Case<'t>> {
        let (_, rest) = line.split_once('\t')?;
        let (asked, rest) = rest.split_once('\t')?;
        let (_, rest) = rest.split_once('\t')?;
        let (wanted, _) = rest.split_once('\t')?;
        Some(Case { asked, wanted })
    }

    /// Whether an answer is the wanted one. Of a refusal more may be told behind what is wanted.
    pub fn is_answered_by(&self, answer: &str) -> bool {
        if answer == self.wanted {
            return true;
        }
        if self.wanted.find("\"refused\":{").is_none() {
            return false;
        }
        let Some(front) = self.wanted.strip_suffix("}}") else {
            return false;
        };
        match answer.strip_prefix(front) {
            Some(rest) => rest.starts_with(','),
            None => false,
        }
    }
}
