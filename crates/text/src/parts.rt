// What ends a piece of a text: the end of its line, the sign that begins a comment, a blank between words, or a comma.
// A value and no closure: what `cut` gives is stated by `stops_at` of it, which each call would have to say again of its closure.
#[derive(Clone, Copy)]
pub enum Mark {
    LineEnd,
    Comment,
    Blank,
    Comma,
}

// A piece of a text, and what follows the byte that ended it.
#[derive(Clone, Copy)]
pub struct Parts<'a> {
    pub piece: &'a str,
    pub rest: &'a str,
}
