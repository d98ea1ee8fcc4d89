// An element whose end tag is due.
use crate::rows::Role;

#[derive(Clone, Copy)]
pub struct Open<'a> {
    pub name: &'a [u8],
    pub role: Role,
}
