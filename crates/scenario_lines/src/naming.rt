// The nodes that were named, by their roles and names.
ghost use Rattle.std.specs.Prelude.{◌≡◌, List};
ghost use Rattle.std.specs.List.{list_any};
ghost use Rattle.scenario_lines.specs.declared.naming.Named.{Named};
ghost use Rattle.scenario_lines.specs.LineContext.{same_role, is_called, is_in_role, has_name};

use mav_names::{Name, is_same_name};

#[derive(Clone, Copy)]
pub enum Role {
    Drone,
    Station,
}

/// A node of a scenario, by its role and name.
#[derive(Clone, Copy)]
pub struct Named {
    pub role: Role,
    pub name: Name,
}

fn is_same_role(role: Role, other: Role) -> bool
    ensures { result ≡ same_role role other }
{
    match role {
        Role::Drone => matches!(other, Role::Drone),
        Role::Station => matches!(other, Role::Station),
    }
}

impl Named {
    /// Whether the node has this name, in any role.
    pub fn is_called(self, name: Name) -> bool
        ensures { result ≡ is_called name self }
    {
        is_same_name(self.name, name)
    }

    /// Whether the node has this name in this role.
    pub fn is_in_role(self, role: Role, name: Name) -> bool
        ensures { result ≡ is_in_role role name self }
    {
        is_same_role(self.role, role) && is_same_name(self.name, name)
    }
}

/// What lines are read against: the nodes that were named so far.
pub trait Names {
    /// The nodes in the order in which they were named.
    ghost known: { Self → List Named };

    /// Whether a node has this name, in any role.
    fn has_name(&self, name: Name) -> bool
        ensures { result ≡ has_name (known self.now) name };

    /// Whether a node has this name in this role.
    fn has_in_role(&self, role: Role, name: Name) -> bool
        ensures { result ≡ list_any (is_in_role role name) (known self.now) };
}
