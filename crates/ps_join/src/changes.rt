/// Which of its outputs a sum changes. Each other output is its input.
#[derive(Clone, Copy)]
pub enum Change {
    /// None of them.
    Stay,
    /// Output `q` is path variable `y`.
    Path { q: u16, y: u16 },
    /// Output `q` is 1 where its input is 0.
    Flip { q: u16 },
    /// Something else, or more than one.
    More,
}
