// What acceptance of a directory gives, and what every call on the file then takes: T, and the number of axes.
#[derive(Clone, Copy, Debug, PartialEq, Eq)]
pub struct Header {
    pub tiles: usize,
    pub axes: usize,
}
