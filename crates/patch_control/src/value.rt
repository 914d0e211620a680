use lv_base::Fixed;

/// A value that a message is written with.
#[derive(Clone, Copy)]
pub enum Value {
    Int(i32),
    Fixed(Fixed),
}
