// Standard output, a piece at a time. A write that fails is passed over: what is told goes on with the next piece.
use std::fmt;

#[derive(Drop)]
pub struct Pieces<'a, P>(pub &'a P);

impl<P: Print> fmt::Write for Pieces<'_, P> {
    fn write_str(&mut self, s: &str) -> fmt::Result {
        let _ = self.0.write_all(s.as_bytes());
        Ok(())
    }
}
