//! The numbers by which a session tells its objects apart.

/// The number of a class.
#[derive(Clone, Copy, Debug, PartialEq, Eq, Hash)]
pub struct ClassId(pub u64);

/// The number of a generic function.
#[derive(Clone, Copy, Debug, PartialEq, Eq, Hash)]
pub struct GenericId(pub u64);

/// The number of a method.
#[derive(Clone, Copy, Debug, PartialEq, Eq, Hash)]
pub struct MethodId(pub u64);

/// The number of an instance, from 1 as they are made.
#[derive(Clone, Copy, Debug, PartialEq, Eq, Hash)]
pub struct InstanceId(pub u64);

/// The number of the cell of a shared slot.
#[derive(Clone, Copy, Debug, PartialEq, Eq, Hash)]
pub struct CellId(pub u64);
