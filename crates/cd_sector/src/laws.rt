//! Laws of consistent sectors and of carried damage. Each law is the contract of a function that
//! does nothing.

ghost use Rattle.cd_sector.specs.Laws.{CarriedExists, CarriedIsUnique, CarriedOfConsistent, ConsistentByParts, ConsistentIsCarried, SectorByDefect, SectorExists, SectorIsUnique};

/// A sector is consistent exactly if each of its parts is.
pub fn consistent_by_parts()
    ensures { ConsistentByParts }
{}

/// Two consistent sectors with equal header and user data are equal.
pub fn sector_is_unique()
    ensures { SectorIsUnique }
{}

/// For any three header bytes and 2048 bytes of user data there is a consistent sector, with mode
/// byte 01.
pub fn sector_exists()
    ensures { SectorExists }
{}

/// Two sectors with equal sync, header and user bytes and equal defects are equal.
pub fn sector_by_defect()
    ensures { SectorByDefect }
{}

/// There is at most one sector with the sync field and the defect of a given sector, and with a
/// given header and given user data.
pub fn carried_is_unique()
    ensures { CarriedIsUnique }
{}

/// For any sector, any four header bytes, and any 2048 bytes of user data, there is a sector with
/// this content, and with the sync field and the defect of the given sector.
pub fn carried_exists()
    ensures { CarriedExists }
{}

/// If the damage of a consistent sector is carried to a content with mode byte 01, the new sector
/// is consistent.
pub fn carried_of_consistent()
    ensures { CarriedOfConsistent }
{}

/// If the damage of a consistent sector is carried to the header and the user data of another
/// consistent sector, that other sector results.
pub fn consistent_is_carried()
    ensures { ConsistentIsCarried }
{}
