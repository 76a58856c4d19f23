//! Laws of the definitions.
ghost use Rattle.epm_manager.specs.RequestLaws.{SpelledIsTower, TowerIsSpelled};

/// The tower of octets is the one that they spell.
pub fn tower_is_spelled()
    ensures { TowerIsSpelled }
{}

/// Octets that spell a tower are that tower's.
pub fn spelled_is_tower()
    ensures { SpelledIsTower }
{}
